// A run's year sent out: its index, its Z or its modified index as a line in the nClimDiv layout.
//
// Document 02, E14: "State, division, the year of row 0 and which of the run's years (from 0) are given; a line is 94
// characters." The promise: the number and the whole content of the lent line equal a definition of what was handed in
// (specs/Sending.antt), for every input, refused or not. The call has no `requires`, and its columns are lent for
// reading.
#![tactic(auto)]

ghost use Rattle.std.specs.Prelude.{◌≡◌, true, ◌++◌, ◌+◌, ◌≤◌, length, drop};
ghost use Rattle.outline.specs.Refused.{answer_number};
ghost use Rattle.fields.specs.Columns.{last_column};
ghost use Rattle.ranges.specs.Ranges.{calendar_fits};
ghost use Rattle.runs.specs.Progress.{run_of};
ghost use Rattle.refusals.specs.Lists.{read};
ghost use Rattle.sent_months.specs.Sent.{year_sent};
ghost use Rattle.sending.specs.Sending.{line_text, heading_fits, all_fit, written, write_line};
ghost use Rattle.sending.specs.Steps.{write_line_for};

use fields::{HEADING, LAST_COLUMN, WIDTH};
use figures::Element;
use layout_heading::Heading;
use outline::{LAST_MONTH, MANY_CONSTANTS, Refusal};
use refusals::Rows;
use runs::{Progress, Run};
use sent_months::SentYear;

// The most that a state, a division and a year may be.
const MOST_OF_TWO: u32 = 99;

const MOST_OF_FOUR: u64 = 9_999;

// Writes a run's year as a line: 1, 7, 24, 25.
pub fn write_line(
    run: Run,
    element: Element,
    state: u32,
    division: u32,
    year: u32,
    which: u32,
    rows: &Rows<'_>,
    line: &mut [u8],
) -> Result<(), Refusal>
    ensures { written (answer_number result) line.new ≡ write_line run element state division year which (read rows.now) line.old }
{
    let at = runs::progress_of(run);
    let constants = run.constants;
    let n = rows.lent_length();
    try_line(
        n, at, &constants, element, state, division, year, which, rows, line,
    )
}

// A line written or refused, by n, what is lent, measured.
fn try_line(
    n: usize,
    at: Progress,
    constants: &[i32; MANY_CONSTANTS],
    element: Element,
    state: u32,
    division: u32,
    year: u32,
    which: u32,
    rows: &Rows<'_>,
    line: &mut [u8],
) -> Result<(), Refusal>
    requires { (n ≤ length rows.now.index.now) × (n ≤ length rows.now.mark.now) × (n ≤ length rows.now.records.now) }
    ensures { written (answer_number result) line.new ≡ write_line_for n (run_of at constants.now) element state division year which (read rows.now) line.old }
{
    refusals::run_refusal(n, at, constants, rows.records)?;
    if !heading_fits(state, division, year, which) {
        return Err(Refusal::Unfit);
    }
    let sent = SentYear {
        element,
        calendar: reopening::calendar_back(at.calendar, at.months),
        months: at.months,
        which,
        rows: *rows,
    };
    if !year_fits(&sent) {
        return Err(Refusal::Unfit);
    }
    if line.len() < LAST_COLUMN {
        return Err(Refusal::NoRoom);
    }
    let heading = Heading {
        state,
        division,
        element: element.number(),
        year: year + which,
    };
    put_line(heading, &sent, line);
    Ok(())
}

// Whether a state, a division and the year `which` from this one on fit their digits.
#[tactic(auto, unfolding(crate::specs::Sending::heading_fits))]
fn heading_fits(state: u32, division: u32, year: u32, which: u32) -> bool
    ensures { result ≡ heading_fits state division (year + which) }
{
    state <= MOST_OF_TWO
        && division <= MOST_OF_TWO
        && u64::from(year) + u64::from(which) <= MOST_OF_FOUR
}

// Whether each month of a run's year fits.
fn year_fits(sent: &SentYear<'_>) -> bool
    requires calendar_value { calendar_fits sent.now.calendar ≡ true }
    requires months_in_bounds { (sent.now.months ≤ length sent.now.rows.index.now) × (sent.now.months ≤ length sent.now.rows.mark.now) × (sent.now.months ≤ length sent.now.rows.records.now) }
    ensures { result ≡ all_fit (year_sent sent.now.element (read sent.now.rows) sent.now.calendar sent.now.months sent.now.which) }
{
    for k in 0..LAST_MONTH {
        if !sent_months::sent_fits(sent.month(k)) {
            return false;
        }
    }
    true
}

// Writes the line of a run's year, of a list that has room for it.
fn put_line(heading: Heading, sent: &SentYear<'_>, line: &mut [u8])
    requires calendar_value { calendar_fits sent.now.calendar ≡ true }
    requires months_in_bounds { (sent.now.months ≤ length sent.now.rows.index.now) × (sent.now.months ≤ length sent.now.rows.mark.now) × (sent.now.months ≤ length sent.now.rows.records.now) }
    requires last_column_in_bounds { last_column ≤ length line.old }
    ensures { line.new ≡ line_text heading.state heading.division heading.element heading.year (year_sent sent.now.element (read sent.now.rows) sent.now.calendar sent.now.months sent.now.which) ++ drop last_column line.old }
{
    heading.write(&mut line[..HEADING]);
    for m in 0..LAST_MONTH {
        let at = HEADING + WIDTH * (m as usize);
        sent_months::write_sent(&mut line[at..at + WIDTH], sent.month(m));
    }
}
