// The card's library: every call of `drought`, of `season`, of `repair` and of `constants`, and a line of a division file written by
// `sending` and read by `layout_figures`, for C to link. include/card.h is its manual.
//
// A reading comes in as a struct, and its answer goes out as one (the crate `kinds`). A run's lists come one by one and go on
// in one value; a refusal goes out as its number, and as 0 a year or a fault that there is none of. All else is handed on as it
// came, and each promise is the call's, of the same definition.
#![tactic(auto)]

ghost use Rattle.std.specs.Prelude.{◌≡◌};
ghost use Rattle.door.specs.Outcome.{told_as};
ghost use Rattle.door.specs.Readings.{reading};
ghost use Rattle.starts.specs.Start.{start_of};
ghost use Rattle.series.specs.Series.{filled, whole_series};
ghost use Rattle.refusals.specs.Book.{book};
ghost use Rattle.drought.specs.Calls.{add_water, add_inches, add_z, row_of_run};
ghost use Rattle.adding.specs.Taken.{result_of};
ghost use Rattle.season.specs.Season.{season_result, add_season};
ghost use Rattle.repair.specs.Repair.{repair_result, repair};
ghost use Rattle.constants.specs.WorkOut.{work_out, sum_month};
ghost use Rattle.kinds.specs.FromC.{reading_of_c};
ghost use Rattle.layout.specs.Rainfall.{year_of};
ghost use Rattle.layout.specs.Fault.{fault_of};
ghost use Rattle.layout_figures.specs.Line.{figures_said};
ghost use Rattle.sending.specs.Sending.{written, write_line};

use adding::Added;
use constants::{Summed, WorkedOut};
use door::{MonthInches, Told};
use drought::Shown;
use figures::Element;
use kinds::CReading;
use layout_figures::Figures;
use records::RecordNumbers;
use refusals::{Lists, Rows};
use repair::Repaired;
use report::ChangeNumbers;
use runs::Run;
use season::Season;
use starts::Started;

// Reads a reading: 8 or 9.
#[unsafe(no_mangle)]
pub extern "C" fn card_read(g: CReading) -> Told
    ensures { told_as result ≡ reading (reading_of_c g) }
{
    door::tell(drought::read(kinds::reading_of(g)))
}

// Starts a run: 2, 3, 21, 4, 5, 6.
#[unsafe(no_mangle)]
pub extern "C" fn card_start(
    constants: &[i32],
    capacity: i32,
    surface: i32,
    underlying: i32,
    month: i32,
) -> Started
    ensures { result ≡ start_of constants.now capacity surface underlying month }
{
    drought::start(constants, capacity, surface, underlying, month)
}

// Adds a month of water, from two readings: 1, 7, 8 or 9, 10.
#[unsafe(no_mangle)]
pub extern "C" fn card_add_water(
    run: Run,
    p: CReading,
    pe: CReading,
    x1: &mut [i32],
    x2: &mut [i32],
    x3: &mut [i32],
    index: &mut [i32],
    mark: &mut [u8],
    records: &mut [RecordNumbers],
    v: &mut [i64],
) -> Added
    ensures { result_of result (book x1.new x2.new x3.new index.new mark.new records.new v.new) ≡ add_water run (reading_of_c p) (reading_of_c pe) (book x1.old x2.old x3.old index.old mark.old records.old v.old) }
{
    let a = kinds::reading_of(p);
    let b = kinds::reading_of(pe);
    let mut lists = Lists {
        x1,
        x2,
        x3,
        index,
        mark,
        records,
        v,
    };
    drought::add_water(run, a, b, &mut lists)
}

// Adds a month of water, from two binary32 inches: 1, 7, 9, 10.
#[unsafe(no_mangle)]
pub extern "C" fn card_add_inches(
    run: Run,
    q: MonthInches,
    x1: &mut [i32],
    x2: &mut [i32],
    x3: &mut [i32],
    index: &mut [i32],
    mark: &mut [u8],
    records: &mut [RecordNumbers],
    v: &mut [i64],
) -> Added
    ensures { result_of result (book x1.new x2.new x3.new index.new mark.new records.new v.new) ≡ add_inches run q (book x1.old x2.old x3.old index.old mark.old records.old v.old) }
{
    let mut lists = Lists {
        x1,
        x2,
        x3,
        index,
        mark,
        records,
        v,
    };
    drought::add_inches(run, q, &mut lists)
}

// Adds a Z: 1, 7, 12, 10.
#[unsafe(no_mangle)]
pub extern "C" fn card_add_z(
    run: Run,
    z: i32,
    x1: &mut [i32],
    x2: &mut [i32],
    x3: &mut [i32],
    index: &mut [i32],
    mark: &mut [u8],
    records: &mut [RecordNumbers],
    v: &mut [i64],
) -> Added
    ensures { result_of result (book x1.new x2.new x3.new index.new mark.new records.new v.new) ≡ add_z run z (book x1.old x2.old x3.old index.old mark.old records.old v.old) }
{
    let mut lists = Lists {
        x1,
        x2,
        x3,
        index,
        mark,
        records,
        v,
    };
    drought::add_z(run, z, &mut lists)
}

// Adds months of water in whole thousandths, -1 for missing, in order until one is refused: 1, 7, then as each
// month's add 8 or 9, 10.
#[unsafe(no_mangle)]
pub extern "C" fn card_add_season(
    run: Run,
    p: &[i32],
    pe: &[i32],
    x1: &mut [i32],
    x2: &mut [i32],
    x3: &mut [i32],
    index: &mut [i32],
    mark: &mut [u8],
    records: &mut [RecordNumbers],
    v: &mut [i64],
) -> Season
    ensures { season_result result (book x1.new x2.new x3.new index.new mark.new records.new v.new) ≡ add_season run p.now pe.now (book x1.old x2.old x3.old index.old mark.old records.old v.old) }
{
    let mut lists = Lists {
        x1,
        x2,
        x3,
        index,
        mark,
        records,
        v,
    };
    season::add_season(run, p, pe, &mut lists)
}

// Repairs the month at a row, from 0 on, with two readings, and reports the months whose index or mark changed: 1, 7, 11, 17, 8 or 9.
#[unsafe(no_mangle)]
pub extern "C" fn card_repair(
    run: Run,
    i: usize,
    p: CReading,
    pe: CReading,
    x1: &mut [i32],
    x2: &mut [i32],
    x3: &mut [i32],
    index: &mut [i32],
    mark: &mut [u8],
    records: &mut [RecordNumbers],
    v: &mut [i64],
    report: &mut [ChangeNumbers],
) -> Repaired
    ensures { repair_result result (book x1.new x2.new x3.new index.new mark.new records.new v.new) report.new ≡ repair run i (reading_of_c p) (reading_of_c pe) (book x1.old x2.old x3.old index.old mark.old records.old v.old) report.old }
{
    let rain = kinds::reading_of(p);
    let demand = kinds::reading_of(pe);
    repair::repair(
        run, i, rain, demand, x1, x2, x3, index, mark, records, v, report,
    )
}

// Shows a month's row, from 0 on: 1, 7, 11.
#[unsafe(no_mangle)]
pub extern "C" fn card_row(
    run: Run,
    i: usize,
    x1: &[i32],
    x2: &[i32],
    x3: &[i32],
    index: &[i32],
    mark: &[u8],
    records: &[RecordNumbers],
    v: &[i64],
) -> Shown
    ensures { result ≡ row_of_run run i (book x1.now x2.now x3.now index.now mark.now records.now v.now) }
{
    let rows = Rows {
        x1,
        x2,
        x3,
        index,
        mark,
        records,
        v,
    };
    drought::row(run, i, &rows)
}

// The whole series of a list of Z: fills indexes and marks. 1, 12.
#[unsafe(no_mangle)]
pub extern "C" fn card_whole_series(z: &[i32], index: &mut [i32], mark: &mut [u8]) -> u8
    ensures { filled result index.new mark.new ≡ whole_series z.now index.old mark.old }
{
    drought::whole_series(z, index, mark)
}

// Works the sixty constants out again from the run's whole years, with twelve first weights: 1, 7, 2 or 3, 18, 19, 20, 21.
#[unsafe(no_mangle)]
pub extern "C" fn card_work_out(
    run: Run,
    weights: &[i32],
    x1: &[i32],
    x2: &[i32],
    x3: &[i32],
    index: &[i32],
    mark: &[u8],
    records: &[RecordNumbers],
    v: &[i64],
) -> WorkedOut
    ensures { result ≡ work_out run weights.now (book x1.now x2.now x3.now index.now mark.now records.now v.now) }
{
    constants::work_out(run, weights, x1, x2, x3, index, mark, records, v)
}

// Sums a calendar month, 1 to 12, over the run's whole years: 1, 7, 6, 18.
#[unsafe(no_mangle)]
pub extern "C" fn card_sum_month(
    run: Run,
    month: i32,
    x1: &[i32],
    x2: &[i32],
    x3: &[i32],
    index: &[i32],
    mark: &[u8],
    records: &[RecordNumbers],
    v: &[i64],
) -> Summed
    ensures { result ≡ sum_month run month (book x1.now x2.now x3.now index.now mark.now records.now v.now) }
{
    constants::sum_month(run, month, x1, x2, x3, index, mark, records, v)
}

// Writes a run's year of indexes as a line, into the first 94 places of a list: 1, 7, 24, 25.
#[unsafe(no_mangle)]
pub extern "C" fn card_write_index_line(
    run: Run,
    state: u32,
    division: u32,
    year: u32,
    which: u32,
    x1: &[i32],
    x2: &[i32],
    x3: &[i32],
    index: &[i32],
    mark: &[u8],
    records: &[RecordNumbers],
    v: &[i64],
    line: &mut [u8],
) -> u8
    ensures { written result line.new ≡ write_line run Element.Index state division year which (book x1.now x2.now x3.now index.now mark.now records.now v.now) line.old }
{
    let rows = Rows {
        x1,
        x2,
        x3,
        index,
        mark,
        records,
        v,
    };
    outline::number(sending::write_line(
        run,
        Element::Index,
        state,
        division,
        year,
        which,
        &rows,
        line,
    ))
}

// The same of Z.
#[unsafe(no_mangle)]
pub extern "C" fn card_write_z_line(
    run: Run,
    state: u32,
    division: u32,
    year: u32,
    which: u32,
    x1: &[i32],
    x2: &[i32],
    x3: &[i32],
    index: &[i32],
    mark: &[u8],
    records: &[RecordNumbers],
    v: &[i64],
    line: &mut [u8],
) -> u8
    ensures { written result line.new ≡ write_line run Element.Z state division year which (book x1.now x2.now x3.now index.now mark.now records.now v.now) line.old }
{
    let rows = Rows {
        x1,
        x2,
        x3,
        index,
        mark,
        records,
        v,
    };
    outline::number(sending::write_line(run, Element::Z, state, division, year, which, &rows, line))
}

// The same of the modified index.
#[unsafe(no_mangle)]
pub extern "C" fn card_write_modified_line(
    run: Run,
    state: u32,
    division: u32,
    year: u32,
    which: u32,
    x1: &[i32],
    x2: &[i32],
    x3: &[i32],
    index: &[i32],
    mark: &[u8],
    records: &[RecordNumbers],
    v: &[i64],
    line: &mut [u8],
) -> u8
    ensures { written result line.new ≡ write_line run Element.Modified state division year which (book x1.now x2.now x3.now index.now mark.now records.now v.now) line.old }
{
    let rows = Rows {
        x1,
        x2,
        x3,
        index,
        mark,
        records,
        v,
    };
    outline::number(sending::write_line(
        run,
        Element::Modified,
        state,
        division,
        year,
        which,
        &rows,
        line,
    ))
}

// Reads a line of indexes, for a named state, division and expected year: 14, 15, 16.
#[unsafe(no_mangle)]
pub extern "C" fn card_read_index_line(line: &[u8], state: u32, division: u32, year: u32) -> Figures
    ensures { result ≡ figures_said line.now Element.Index state division year }
{
    layout_figures::read(line, Element::Index, state, division, year)
}

// The same of Z.
#[unsafe(no_mangle)]
pub extern "C" fn card_read_z_line(line: &[u8], state: u32, division: u32, year: u32) -> Figures
    ensures { result ≡ figures_said line.now Element.Z state division year }
{
    layout_figures::read(line, Element::Z, state, division, year)
}

// The same of the modified index.
#[unsafe(no_mangle)]
pub extern "C" fn card_read_modified_line(
    line: &[u8],
    state: u32,
    division: u32,
    year: u32,
) -> Figures
    ensures { result ≡ figures_said line.now Element.Modified state division year }
{
    layout_figures::read(line, Element::Modified, state, division, year)
}

// The year that a line's columns say, or 0: for the first line of a file, whose year is not known before.
#[unsafe(no_mangle)]
pub extern "C" fn card_line_year(line: &[u8]) -> u32
    ensures { result ≡ year_of line.now }
{
    layout::year_of(line).unwrap_or(0)
}

// The column where the first field at fault of a line begins, counted from 1, or 0: for a person who is told 14.
#[unsafe(no_mangle)]
pub extern "C" fn card_line_fault(line: &[u8]) -> u32
    ensures { result ≡ fault_of line.now }
{
    layout::fault(line).unwrap_or(0)
}
