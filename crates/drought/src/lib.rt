// The drought index: all that can be asked of it, and nothing else.
//
// Every call has its promise: its answer, the run that it hands back and the whole content of every lent list
// equal a definition of what was handed in (specs/Calls.antt), for every input, refused or not. No call has a
// `requires`. An add takes the run apart once and puts it together once: within, a run goes without its sixty constants.
// A call asks `refusals` first; where nothing is refused, `taking` does the month's work.
#![tactic(auto)]

ghost use Rattle.std.specs.Prelude.{◌≡◌, ◌≤◌};
ghost use Rattle.outline.specs.Refused.{refusal_number, answer_number};
ghost use Rattle.door.specs.Outcome.{outcome};
ghost use Rattle.door.specs.Readings.{reading, most_reading};
ghost use Rattle.starts.specs.Start.{start_of};
ghost use Rattle.series.specs.Series.{filled, whole_series};
ghost use Rattle.refusals.specs.Lists.{held, read, SameLists};
ghost use Rattle.refusals.specs.Lent.{row_number_for};
ghost use Rattle.runs.specs.Progress.{run_of};
ghost use Rattle.adding.specs.Taken.{result_of};
ghost use Rattle.adding.specs.Progress.{numbered};
ghost use Rattle.drought.specs.Calls.{add_outcomes, add_water, add_inches, add_z, not_shown, row_of_run};

use adding::{Added, MonthAdded};
use door::{Amount, MonthInches, MonthKinds, Reading};
use outline::{MANY_CONSTANTS, Refusal};
use records::{Record, RecordNumbers};
use refusals::{Lists, Rows};
use runs::{Progress, Run};
use starts::Started;

// What the columns hold of a month.
#[repr(C)]
#[derive(Drop)]
pub struct Shown {
    pub number: u8,
    pub x1: i32,
    pub x2: i32,
    pub x3: i32,
    pub index: i32,
    pub mark: u8,
    pub month: Record,
    pub v: i64,
}

// Reads a reading: 8 or 9.
pub fn read(r: Reading) -> Result<Amount, Refusal>
    ensures { outcome result ≡ reading r }
{
    door::read(r)
}

// Starts a run: 2, 3, 21, 4, 5, 6.
pub fn start(constants: &[i32], capacity: i32, surface: i32, underlying: i32, month: i32) -> Started
    ensures { result ≡ start_of constants.now capacity surface underlying month }
{
    starts::start(constants, capacity, surface, underlying, month)
}

// Adds a month of water, from two readings: 1, 7, 8 or 9, 10.
pub fn add_water(run: Run, p: Reading, pe: Reading, lists: &mut Lists) -> Added
    ensures same { SameLists lists.old lists.new }
    ensures outcome { result_of result (held lists.new) ≡ add_water run p pe (held lists.old) }
{
    let a = door::tell(door::read(p));
    let b = door::tell(door::read(pe));
    let kinds = MonthKinds {
        p: a.kind,
        pe: b.kind,
    };
    let at = runs::progress_of(run);
    let constants = run.constants;
    let reading = refusals::reading_refusal(a.number, b.number);
    let t = try_water(at, &constants, reading, a.water, b.water, kinds, lists);
    adding::answer_of(t.number, t.month, constants)
}

// Adds a month of water, from two binary32 inches: 1, 7, 9, 10.
pub fn add_inches(run: Run, q: MonthInches, lists: &mut Lists) -> Added
    ensures same { SameLists lists.old lists.new }
    ensures outcome { result_of result (held lists.new) ≡ add_inches run q (held lists.old) }
{
    let both = door::read_month(q);
    let a = both.p;
    let b = both.pe;
    let kinds = MonthKinds {
        p: a.kind,
        pe: b.kind,
    };
    let at = runs::progress_of(run);
    let constants = run.constants;
    let reading = refusals::reading_refusal(a.number, b.number);
    let t = try_water(at, &constants, reading, a.water, b.water, kinds, lists);
    adding::answer_of(t.number, t.month, constants)
}

// A month that was tried: 0 or the number of its refusal, and the month that was added or was not. In a `Result` with the month in it
// the month is copied where it is taken apart.
#[derive(Drop)]
struct Tried {
    number: u8,
    month: MonthAdded,
}

// A month of water by the number, the thousandths and the kinds that its two readings come to, added or refused.
fn try_water(
    at: Progress,
    constants: &[i32; MANY_CONSTANTS],
    reading: u8,
    p: u32,
    pe: u32,
    kinds: MonthKinds,
    lists: &mut Lists,
) -> Tried
    requires { (p ≤ most_reading) × (pe ≤ most_reading) }
    ensures same { SameLists lists.old lists.new }
    ensures outcome { result_of (numbered result.number result.month constants.now) (held lists.new) ≡ add_outcomes (run_of at constants.now) (record { number = reading; water = p; kind = kinds.p }) (record { number = 0; water = pe; kind = kinds.pe }) (held lists.old) }
{
    let rows = lists.rows();
    let number = refusals::water_refusal(rows.lent_length(), at, constants, reading, rows.records);
    if number != 0 {
        return Tried {
            number,
            month: adding::not_added(at),
        };
    }
    Tried {
        number,
        month: taking::add_measured(at, constants, p, pe, kinds, lists),
    }
}

// Adds a Z: the storages stay, the calendar moves on. 1, 7, 12, 10.
pub fn add_z(run: Run, z: i32, lists: &mut Lists) -> Added
    ensures same { SameLists lists.old lists.new }
    ensures outcome { result_of result (held lists.new) ≡ add_z run z (held lists.old) }
{
    let at = runs::progress_of(run);
    let constants = run.constants;
    let t = try_z(at, &constants, z, lists);
    adding::answer_of(t.number, t.month, constants)
}

// A Z, added or refused.
fn try_z(at: Progress, constants: &[i32; MANY_CONSTANTS], z: i32, lists: &mut Lists) -> Tried
    ensures same { SameLists lists.old lists.new }
    ensures outcome { result_of (numbered result.number result.month constants.now) (held lists.new) ≡ add_z (run_of at constants.now) z (held lists.old) }
{
    let rows = lists.rows();
    let asked = refusals::z_refusal(rows.lent_length(), at, constants, z, rows.records);
    let number = outline::number(asked);
    if number != 0 {
        return Tried {
            number,
            month: adding::not_added(at),
        };
    }
    Tried {
        number,
        month: taking::add_z(at, z, lists),
    }
}

// Shows a month's row, from 0 on: 1, 7, 11.
pub fn row(run: Run, i: usize, rows: &Rows) -> Shown
    ensures { result ≡ row_of_run run i (read rows.now) }
{
    let fit = rows.fit();
    match row_number(fit, run, i, rows.records) {
        Ok(()) => {
            let kept = records::record_at(rows.records, i);
            Shown {
                number: 0,
                x1: rows.x1[i],
                x2: rows.x2[i],
                x3: rows.x3[i],
                index: rows.index[i],
                mark: rows.mark[i],
                month: kept,
                v: rows.v[i],
            }
        }
        Err(refusal) => not_shown(refusal),
    }
}

// The refusal of a row, by whether its lists can be lent.
fn row_number(fit: bool, run: Run, i: usize, records: &[RecordNumbers]) -> Result<(), Refusal>
    ensures { answer_number result ≡ row_number_for fit run i records.now }
{
    if !fit {
        return Err(Refusal::BadLists);
    }
    let at = runs::progress_of(run);
    let constants = run.constants;
    refusals::row_refusal(records.len(), at, &constants, i, records)
}

// A row that is refused: its number, and all else 0.
fn not_shown(refusal: Refusal) -> Shown
    ensures { result ≡ not_shown (refusal_number refusal) }
{
    let none = records::no_record();
    Shown {
        number: refusal.number(),
        x1: 0,
        x2: 0,
        x3: 0,
        index: 0,
        mark: 0,
        month: none,
        v: 0,
    }
}

// The whole series of a list of Z: fills indexes and marks. 1, 12.
pub fn whole_series(z: &[i32], index: &mut [i32], mark: &mut [u8]) -> u8
    ensures { filled result index.new mark.new ≡ whole_series z.now index.old mark.old }
{
    outline::number(series::whole_series(z, index, mark))
}
