// Rows of water as an add gives them: what 7 asks of the records from which constants are worked out, and such a row without its
// signs.
//
// For the crates `sums`, `departures`, `weighing` and `constants`, which have asked for 1 and for the rest of 7: what has a
// `requires` is for them alone.
#![tactic(auto)]

ghost use Rattle.std.specs.Prelude.{◌≡◌, true, ◌+◌, ◌≤◌, ◌<◌, length};
ghost use Rattle.door.specs.Readings.{most_reading};
ghost use Rattle.water.specs.Layers.{least_capacity, most_capacity};
ghost use Rattle.records.specs.Record.{record_at};
ghost use Rattle.given_rows.specs.GivenRows.{water_of, addable, holds, given_by_add, row_given, rows_given};

mod month;

use kept_rows::MOST_READING;
pub use month::CalendarMonth;
use records::{ET, L, R, RO, Record, RecordNumbers, SURFACE, UNDERLYING, WATER};
use water::{Balance, Soil};

// A month of water as its record has it, without the signs: what fell, what was asked for, what the balance made of it, and the
// soil from which it started.
#[derive(Drop)]
pub struct WaterRow {
    pub p: u32,
    pub pe: u32,
    pub et: u32,
    pub r: u32,
    pub l: u32,
    pub ro: u32,
    pub soil: Soil,
}

// Every row of water among the first is one that an add gives, in a soil of this capacity.
pub fn rows_given(capacity: u32, months: u32, records: &[RecordNumbers]) -> bool
    requires { (least_capacity ≤ capacity) × (capacity ≤ most_capacity) × (months ≤ length records.now) }
    ensures { result ≡ rows_given capacity records.now months }
{
    for row in 0..months as usize {
        if !row_given(capacity, row, records) {
            return false;
        }
    }
    true
}

// A row is one that an add gives, or had no water. The two kinds of a month are told apart here and not in the balance, so that what
// is 0 in each is compared with 0.
fn row_given(capacity: u32, i: usize, records: &[RecordNumbers]) -> bool
    requires { (least_capacity ≤ capacity) × (capacity ≤ most_capacity) × (i < length records.now) }
    ensures { result ≡ row_given capacity (record_at records.now i) }
{
    let m = records::record_at(records, i);
    if m.water != WATER {
        return true;
    }
    if !addable(capacity, m) {
        return false;
    }
    let surface = m.ss as u32;
    let underlying = m.su as u32;
    let soil = Soil {
        capacity,
        surface,
        underlying,
    };
    let p = m.p as u32;
    let pe = m.pe as u32;
    if p < pe {
        holds(water::dry_month(soil, p, pe), i, records)
    } else {
        holds(water::wet_month(soil, p, pe), i, records)
    }
}

// What an add can start from: its readings and both storages are in their ranges.
// `kept_rows` asks ten figures, eight of them at once; these are four, with a way out after each.
fn addable(capacity: u32, m: Record) -> bool
    requires { capacity ≤ most_capacity }
    ensures { result ≡ addable capacity m }
{
    if ranges::beyond(0, m.p, MOST_READING) {
        return false;
    }
    if ranges::beyond(0, m.pe, MOST_READING) {
        return false;
    }
    if ranges::beyond(0, m.ss, kept_rows::limit(water::surface_holds(capacity))) {
        return false;
    }
    !ranges::beyond(0, m.su, kept_rows::limit(water::underlying_holds(capacity)))
}

// A record holds this balance: ET, R, L, RO and both storages at the end. Each number is read where it is compared.
fn holds(b: Balance, i: usize, records: &[RecordNumbers]) -> bool
    requires et_le_most_reading { (b.et ≤ most_reading) × (b.r ≤ most_reading) × (b.ls + b.lu ≤ most_reading) × (b.ro ≤ most_reading) }
    requires surface_le_most_reading { (b.surface ≤ most_reading) × (b.underlying ≤ most_reading) }
    requires i_in_bounds { i < length records.now }
    ensures { result ≡ holds (record_at records.now i) b }
{
    if !records::amounts(records[i][ET], b.et) {
        return false;
    }
    if !records::amounts(records[i][R], b.r) {
        return false;
    }
    if !records::amounts(records[i][L], b.ls + b.lu) {
        return false;
    }
    if !records::amounts(records[i][RO], b.ro) {
        return false;
    }
    if !records::amounts(records[i][SURFACE], b.surface) {
        return false;
    }
    records::amounts(records[i][UNDERLYING], b.underlying)
}

// The row of water at a place, which is one that an add gives.
pub fn water_at(capacity: u32, i: usize, records: &[RecordNumbers]) -> WaterRow
    requires { (i < length records.now) × (given_by_add capacity (record_at records.now i) ≡ true) }
    ensures { result ≡ water_of capacity (record_at records.now i) }
{
    let m = records::record_at(records, i);
    let start = Soil {
        capacity,
        surface: m.ss as u32,
        underlying: m.su as u32,
    };
    WaterRow {
        p: m.p as u32,
        pe: m.pe as u32,
        et: m.et as u32,
        r: m.r as u32,
        l: m.l as u32,
        ro: m.ro as u32,
        soil: start,
    }
}
