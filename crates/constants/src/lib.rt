// Station constants from the station's own record: a lost set is worked out again, and what it is made from is shown.
//
// Each promise: the answer equals a definition of what was handed in (specs/WorkOut.antt), for every input, refused or not. No call
// has a `requires`, and none writes: all that is lent is lent for reading.
#![tactic(auto)]

ghost use Rattle.std.specs.Prelude.{◌≡◌, true, cond, List, ℕ, ◌+◌, ◌*◌, ◌≤◌, ℤ, length};
ghost use Rattle.outline.specs.Numbers.{last_month, most_months};
ghost use Rattle.outline.specs.Refusals.{bad_month};
ghost use Rattle.ranges.specs.Ranges.{calendar_fits};
ghost use Rattle.runs.specs.Progress.{run_of};
ghost use Rattle.refusals.specs.Book.{book};
ghost use Rattle.refusals.specs.Lists.{read};
ghost use Rattle.refusals.specs.Lent.{run_refusal_for};
ghost use Rattle.outline.specs.Refused.{refusal_number, answer_number};
ghost use Rattle.starts.specs.Start.{month_fits};
ghost use Rattle.years.specs.Years.{first_of, years_of};
ghost use Rattle.weighing.specs.Weighing.{span, weights_fit};
ghost use Rattle.weighing.specs.Stores.{Years};
ghost use Rattle.constants.specs.WorkOut.{record_refusal, weights_refusal, fewest_years, years_refusal, not_worked_out, set_of, work_out, not_summed, sum_month};
ghost use Rattle.constants.specs.Asked.{asked_refusal, answered, answered_sums};

use given_rows::CalendarMonth;
use outline::{LAST_MONTH, MANY_CONSTANTS, Refusal};
use records::RecordNumbers;
use refusals::Rows;
use runs::{Progress, Run};
use sums::Sums;
use weighing::{MANY_MONTHS, Weights};

// The fewest years that will do.
const FEWEST_YEARS: u32 = 10;

// What a calendar month's constants are made from: 0 or the refusal, over how many years, and the eight sums.
#[repr(C)]
#[derive(Drop)]
pub struct Summed {
    pub number: u8,
    pub years: u32,
    pub sums: Sums,
}

// The constants worked out again: 0 or the refusal, the sixty, and the twelve D.
#[repr(C)]
#[derive(Drop)]
pub struct WorkedOut {
    pub number: u8,
    pub constants: [i32; MANY_CONSTANTS],
    pub departures: [u32; MANY_MONTHS],
}

// The sixty constants worked out again, and the twelve D.
#[derive(Drop)]
struct Set {
    constants: [i32; MANY_CONSTANTS],
    departures: [u32; MANY_MONTHS],
}

// The whole years of a run: the row of the first January, and how many they are.
#[derive(Drop)]
struct WholeYears {
    first: u32,
    years: u32,
}

// Works the sixty constants out again from a run's whole years, with twelve first weights: 1, 7, 2 or 3, 18, 19, 20, 21.
// The lists come one by one, as C lends them.
pub fn work_out<'a>(
    run: Run,
    weights: &[i32],
    x1: &'a [i32],
    x2: &'a [i32],
    x3: &'a [i32],
    index: &'a [i32],
    mark: &'a [u8],
    records: &'a [RecordNumbers],
    v: &'a [i64],
) -> WorkedOut
    ensures { result ≡ work_out run weights.now (book x1.now x2.now x3.now index.now mark.now records.now v.now) }
{
    let rows = Rows {
        x1,
        x2,
        x3,
        index,
        mark,
        records,
        v,
    };
    match set_worked_out(run, weights, &rows) {
        Ok(set) => {
            let constants = set.constants;
            let departures = set.departures;
            WorkedOut {
                number: 0,
                constants,
                departures,
            }
        }
        Err(refusal) => not_worked_out(refusal),
    }
}

// The set that is answered, or the refusal.
fn set_worked_out(run: Run, weights: &[i32], rows: &Rows) -> Result<Set, Refusal>
    ensures { answered result ≡ work_out run weights.now (read rows.now) }
{
    let at = runs::progress_of(run);
    let constants = run.constants;
    refusal(at, &constants, weights_refusal(weights), rows)?;
    let whole = whole_years(at);
    set_of(
        at.soil.capacity,
        whole.first as usize,
        whole.years,
        weights,
        rows.records,
    )
}

// Sums a calendar month, 1 to 12, over a run's whole years: 1, 7, 6, 18.
// The lists come one by one, as C lends them.
pub fn sum_month<'a>(
    run: Run,
    month: i32,
    x1: &'a [i32],
    x2: &'a [i32],
    x3: &'a [i32],
    index: &'a [i32],
    mark: &'a [u8],
    records: &'a [RecordNumbers],
    v: &'a [i64],
) -> Summed
    ensures { result ≡ sum_month run month (book x1.now x2.now x3.now index.now mark.now records.now v.now) }
{
    let rows = Rows {
        x1,
        x2,
        x3,
        index,
        mark,
        records,
        v,
    };
    match month_summed(run, month, &rows) {
        Ok((years, sums)) => Summed {
            number: 0,
            years,
            sums,
        },
        Err(refusal) => not_summed(refusal),
    }
}

// The years and the sums that are answered, or the refusal.
fn month_summed(run: Run, month: i32, rows: &Rows) -> Result<(u32, Sums), Refusal>
    ensures { answered_sums result ≡ sum_month run month (read rows.now) }
{
    let at = runs::progress_of(run);
    let constants = run.constants;
    refusal(at, &constants, month_refusal(month), rows)?;
    let whole = whole_years(at);
    let row = whole.first as usize + (month as usize - 1);
    let over_years = CalendarMonth {
        capacity: at.soil.capacity,
        at: row,
        years: whole.years,
        records: rows.records,
    };
    let sums = sums::sums_of(&over_years);
    Ok((whole.years, sums))
}

// 1, 7, the refusal of what else is handed in, and 18.
fn refusal(
    at: Progress,
    constants: &[i32; MANY_CONSTANTS],
    given: Result<(), Refusal>,
    rows: &Rows,
) -> Result<(), Refusal>
    ensures { answer_number result ≡ asked_refusal (run_of at constants.now) (answer_number given) (read rows.now) }
{
    record_refusal(at, constants, rows)?;
    given?;
    let whole = whole_years(at);
    years_refusal(whole.first, whole.years, rows.records)
}

// 1 and 7. A call of its own: compiled in place it costs each month of the rows, which are asked after it, five instructions.
#[inline(never)]
fn first_refusal(
    n: usize,
    at: Progress,
    constants: &[i32; MANY_CONSTANTS],
    records: &[RecordNumbers],
) -> Result<(), Refusal>
    requires { n ≤ length records.now }
    ensures { answer_number result ≡ run_refusal_for n (run_of at constants.now) records.now }
{
    refusals::run_refusal(n, at, constants, records)
}

// 1 and 7, the rows asked too.
fn record_refusal(
    at: Progress,
    constants: &[i32; MANY_CONSTANTS],
    rows: &Rows,
) -> Result<(), Refusal>
    ensures { answer_number result ≡ record_refusal (run_of at constants.now) (read rows.now) }
{
    let long = rows.lent_length();
    first_refusal(long, at, constants, rows.records)?;
    if !given_rows::rows_given(at.soil.capacity, at.months, rows.records) {
        return Err(Refusal::NotARun);
    }
    Ok(())
}

// 2 and 3, of the weights.
fn weights_refusal(weights: &[i32]) -> Result<(), Refusal>
    ensures { answer_number result ≡ weights_refusal weights.now }
{
    if weights.len() != MANY_MONTHS {
        return Err(Refusal::NotSixty);
    }
    if weighing::weights_fit(weights) {
        Ok(())
    } else {
        Err(Refusal::BadConstant)
    }
}

// 6, of a calendar month.
fn month_refusal(month: i32) -> Result<(), Refusal>
    ensures { answer_number result ≡ cond (month_fits month) 0 bad_month }
{
    if ranges::signed_between(1, month, LAST_MONTH) {
        Ok(())
    } else {
        Err(Refusal::BadMonth)
    }
}

// The whole years of a run.
fn whole_years(at: Progress) -> WholeYears
    requires { calendar_fits at.calendar ≡ true }
    ensures { (k : List ℤ) → (result.first ≡ first_of (run_of at k)) × (result.years ≡ years_of (run_of at k)) }
{
    let first = years::first_january(reopening::calendar_back(at.calendar, at.months));
    WholeYears {
        first,
        years: years::years_from(first, at.months),
    }
}

// 18: too few years, or a month among them without water.
fn years_refusal(first: u32, years: u32, records: &[RecordNumbers]) -> Result<(), Refusal>
    requires { fewest_years ≤ years → (first + last_month * years ≤ length records.now) × (first + last_month * years ≤ most_months) }
    ensures { (capacity : ℕ) → answer_number result ≡ years_refusal (span capacity records.now first years) }
{
    if years < FEWEST_YEARS {
        return Err(Refusal::FewYears);
    }
    if years::all_water(first, LAST_MONTH * years, records) {
        Ok(())
    } else {
        Err(Refusal::FewYears)
    }
}

// The set of the years, whose rows, water and weights were asked: 19, 20, 21.
fn set_of(
    capacity: u32,
    first: usize,
    years: u32,
    weights: &[i32],
    records: &[RecordNumbers],
) -> Result<Set, Refusal>
    requires first_le_most_months { (first ≤ most_months) × Years capacity records.now first years }
    requires weights_len { (length weights.now ≡ last_month) × (weights_fit weights.now last_month ≡ true) }
    ensures { answered result ≡ set_of (span capacity records.now first years) weights.now }
{
    let mut set = [0i32; MANY_CONSTANTS];
    let mut means = [0u32; MANY_MONTHS];
    weighing::put_shares(capacity, first, years, records, &mut set, &mut means)?;
    let twelve = Weights { list: weights };
    let total = weighing::products(&means, &twelve);
    if total == 0 {
        return Err(Refusal::BadK);
    }
    weighing::put_ks(total, &twelve, &mut set)?;
    if !calendar::constants_serve(&set) {
        return Err(Refusal::ZeroK);
    }
    Ok(Set {
        constants: set,
        departures: means,
    })
}

// A refusal: its number, and all else 0, field by field: an array of sixty has no `Default`.
fn not_worked_out(refusal: Refusal) -> WorkedOut
    ensures { result ≡ not_worked_out (refusal_number refusal) }
{
    WorkedOut {
        number: refusal.number(),
        constants: [0; MANY_CONSTANTS],
        departures: [0; MANY_MONTHS],
    }
}

// The same of the sums.
fn not_summed(refusal: Refusal) -> Summed
    ensures { result ≡ not_summed (refusal_number refusal) }
{
    Summed {
        number: refusal.number(),
        years: 0,
        sums: Sums::default(),
    }
}
