// What the lent lists record of each month is in its range: what 7 asks of a repair beyond what it asks of every call.
//
// For the crate `repair`, which has asked for 1 and for the rest of 7: `rows_fit` has a `requires`.
#![tactic(auto)]

ghost use Rattle.std.specs.Prelude.{◌≡◌, ◌&&◌, ◌≤◌, ◌<◌, pos, length, not, ℕ, Bool};
ghost use Rattle.outline.specs.Numbers.{most_months};
ghost use Rattle.outline.specs.Every.{all_of};
ghost use Rattle.water.specs.Layers.{most_capacity};
ghost use Rattle.refusals.specs.Book.{book};
ghost use Rattle.kept_rows.specs.KeptRows.{water_fits, storages_fit, record_fits, rows_fit};
ghost use Rattle.std.specs.Int.Signed.{le_z};
ghost use Rattle.std.specs.Fn.{FnReturnsAt};
ghost use Rattle.kept_rows.specs.Lists.{AnswersNot, between_at, mark_at, opposed_to, v_row_fits, rest_at};

use outline::{MOST_U, MOST_X};
use ranges::MOST_CAPACITY;
use records::{Record, RecordNumbers, WATER};

// The most of an X and of an index, in size.
const MOST_INDEX: i32 = MOST_X as i32;

const LEAST_INDEX: i32 = -MOST_INDEX;

// The most of a month's reading and of its water, in thousandths of an inch.
pub const MOST_READING: i32 = 100_000;

// The marks: open and settled.
const OPEN: i32 = 1;

const SETTLED: i32 = 2;

// A record's `kind` ends here.
const MEASURED: i32 = 2;

// Each figure of the first rows is in its range, in a soil of this capacity. The columns are asked one after another, and then
// what is left of each row.
pub fn rows_fit(
    capacity: u32,
    months: u32,
    x1: &[i32],
    x2: &[i32],
    x3: &[i32],
    index: &[i32],
    mark: &[u8],
    records: &[RecordNumbers],
    v: &[i64],
) -> bool
    requires capacity_le_most_capacity { (capacity ≤ most_capacity) × (months ≤ most_months) }
    requires months_in_bounds { (months ≤ length x1.now) × (months ≤ length x2.now) × (months ≤ length x3.now) × (months ≤ length index.now) × (months ≤ length mark.now) × (months ≤ length records.now) × (months ≤ length v.now) }
    ensures { result ≡ rows_fit capacity (book x1.now x2.now x3.now index.now mark.now records.now v.now) months }
{
    if !column_fits(months, x1, 0, MOST_INDEX) {
        return false;
    }
    if !column_fits(months, x2, LEAST_INDEX, 0) {
        return false;
    }
    if !column_fits(months, x3, LEAST_INDEX, MOST_INDEX) {
        return false;
    }
    if !column_fits(months, index, LEAST_INDEX, MOST_INDEX) {
        return false;
    }
    if !marks_fit(months, mark) {
        return false;
    }
    rest_fits(capacity, months, x3, records, v)
}

// A column's first numbers are from the least to the most.
fn column_fits(months: u32, column: &[i32], least: i32, most: i32) -> bool
    requires { months ≤ length column.now }
    ensures { result ≡ all_of (between_at least most column.now) months }
{
    none_of(
        &column[..months as usize],
        |x: &i32| -> bool
            ensures { result ≡ not (le_z least x.now && le_z x.now most) }
        { ranges::beyond(least, *x, most) },
    )
}

// The first marks are open or settled.
fn marks_fit(months: u32, mark: &[u8]) -> bool
    requires { months ≤ length mark.now }
    ensures { result ≡ all_of (mark_at mark.now) months }
{
    none_of(
        &mark[..months as usize],
        |x| ranges::beyond(OPEN, i32::from(*x), SETTLED),
    )
}

// Whether none of the items is so. All are looked at, whatever the first ones are, so that several are compared at once.
pub fn none_of<T, F: Fn(&T) -> bool>(items: &[T], is_so: F) -> bool
    requires { F.IsAlwaysCallable is_so }
    ensures { (test : ℕ → Bool) → AnswersNot (FnReturnsAt F.Fn is_so) items.now test → result ≡ all_of test (length items.now) }
{
    let mut some = false;
    for x in items {
        some |= is_so(x);
    }
    !some
}

// What is left of each row: V and the record.
fn rest_fits(capacity: u32, months: u32, x3: &[i32], records: &[RecordNumbers], v: &[i64]) -> bool
    requires capacity_le_most_capacity { (capacity ≤ most_capacity) × (months ≤ most_months) }
    requires months_in_bounds { (months ≤ length x3.now) × (months ≤ length records.now) × (months ≤ length v.now) }
    ensures { result ≡ all_of (rest_at capacity x3.now records.now v.now) months }
{
    for row in 0..months {
        let at = row as usize;
        if !v_fits(row + 1, x3[at], v[at]) {
            return false;
        }
        if !record_fits(capacity, records::record_at(records, at)) {
            return false;
        }
    }
    true
}

// V after so many months, by the side of X3 and by its size: most months have a V of 0, of which neither need be asked.
fn v_fits(months: u32, x3: i32, v: i64) -> bool
    ensures { result ≡ v_row_fits months x3 v }
{
    if v == 0 {
        return true;
    }
    if !opposed(x3, v) {
        return false;
    }
    let most = MOST_U * (months as i64);
    ranges::within(v, most)
}

// V above 0 with X3 below, V below 0 with X3 above, or V 0.
fn opposed(x3: i32, v: i64) -> bool
    ensures { result ≡ opposed_to x3 v }
{
    if v > 0 {
        return x3 < 0;
    }
    if v < 0 {
        return x3 > 0;
    }
    true
}

// The record of a month.
fn record_fits(capacity: u32, m: Record) -> bool
    requires { capacity ≤ most_capacity }
    ensures { result ≡ record_fits capacity m }
{
    if !ranges::z_fits(m.z) {
        return false;
    }
    if !amounts_fit(capacity, m) {
        return false;
    }
    if ranges::beyond(0, m.water, WATER) {
        return false;
    }
    if ranges::beyond(LEAST_INDEX, m.modified, MOST_INDEX) {
        return false;
    }
    !ranges::beyond(0, m.kind, MEASURED)
}

// Its amounts: the six figures of water and the storages. The eight that stand first are compared four at a time.
fn amounts_fit(capacity: u32, m: Record) -> bool
    requires { capacity ≤ most_capacity }
    ensures { result ≡ (water_fits m && storages_fit capacity m) }
{
    let surface = limit(water::surface_holds(capacity));
    let underlying = limit(water::underlying_holds(capacity));
    let bad = ranges::beyond(0, m.p, MOST_READING)
        | ranges::beyond(0, m.pe, MOST_READING)
        | ranges::beyond(0, m.et, MOST_READING)
        | ranges::beyond(0, m.r, MOST_READING)
        | ranges::beyond(0, m.l, MOST_READING)
        | ranges::beyond(0, m.ro, MOST_READING)
        | ranges::beyond(0, m.ss, surface)
        | ranges::beyond(0, m.su, underlying);
    if bad {
        return false;
    }
    if ranges::beyond(0, m.surface, surface) {
        return false;
    }
    !ranges::beyond(0, m.underlying, underlying)
}

// What a layer holds, as the end of a range. It is never beyond the capacity's end, and is held to it so that the compiler sees that
// it is not below zero: a number and both its ends are then one comparison.
pub fn limit(holds: u32) -> i32
    requires { holds ≤ most_capacity }
    ensures { result ≡ pos holds }
{
    holds.min(MOST_CAPACITY) as i32
}
