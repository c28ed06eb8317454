// What the program `palmer` prints: the row of each month, or which line was refused. `drought` gives what a row shows, `rows`
// lays it out. Every call here serves that program alone.
#![tactic(auto)]

ghost use Rattle.std.specs.Prelude.{◌+◌, ◌≤◌, ◌<◌, ◌≡◌, length};
ghost use Rattle.refusals.specs.Book.{book};
ghost use Rattle.refusals.specs.Lists.{read};
ghost use Rattle.rows.specs.Text.{row_text};
ghost use Rattle.rows.specs.Room.{laid, most_row};
ghost use Rattle.palmer_input.specs.ByLines.{state_of};
ghost use Rattle.palmer_output.specs.Printed.{percent_at, row_at};
ghost use Rattle.palmer_output.specs.Output.{all_rows, line_after, output_of, laid_out, room};

use palmer_input::Heard;
use records::RecordNumbers;
use refusals::Rows;
use rows::{MOST_ROW, Row};
use runs::Run;

// The most months that the program holds, one a line: its columns are so long.
pub const MOST_LINES: usize = 2_400;

// What all rows need at most.
pub const ROOM: usize = MOST_LINES * MOST_ROW;

// The number of the line that comes after so many months, counted from 1: each line before it gave a month.
pub fn line_after(months: u32) -> u32
    ensures { result ≡ line_after months }
{
    months.min(MOST_LINES as u32) + 1
}

#[tactic(auto, unfolding(crate::specs::Printed::percent_at))]
fn percent_at(percent: &[u32], i: usize) -> u32
    ensures { result ≡ percent_at percent.now i }
{
    percent.get(i).copied().unwrap_or(0)
}

// Puts the row of month i, counted from 0.
fn put_row(run: &Run, i: u32, rows: &Rows, percent: &[u32], at: usize, out: &mut [u8]) -> usize
    requires i_bound { i < 4294967295 }
    requires most_row_in_bounds { at + most_row ≤ length out.old }
    ensures upper_bound { result ≤ at + most_row }
    ensures value { result ≡ at + length (row_text (row_at run.now i (read rows.now) percent.now)) }
    ensures out_after { out.new ≡ laid (row_text (row_at run.now i (read rows.now) percent.now)) at out.old }
{
    let shown = drought::row(*run, i as usize, rows);
    let row = Row {
        month: i + 1,
        x1: shown.x1,
        x2: shown.x2,
        x3: shown.x3,
        percent: percent_at(percent, i as usize),
        index: shown.index,
        mark: shown.mark,
    };
    rows::lay_out(row, at, out)
}

// Puts the row of each month, and answers where they end.
fn put_rows(run: &Run, rows: &Rows, percent: &[u32], out: &mut [u8]) -> usize
    requires { length out.old ≡ room }
    ensures upper_bound { result ≤ room }
    ensures value { result ≡ length (all_rows run.now (read rows.now) percent.now) }
    ensures out_after { out.new ≡ laid (all_rows run.now (read rows.now) percent.now) 0 out.old }
{
    let mut at = 0;
    for i in 0..run.months.min(MOST_LINES as u32) {
        at = put_row(run, i, rows, percent, at, out);
    }
    at
}

// Puts all that is printed where the input has ended, and answers where it ends: the rows, or where a line was refused, with
// this number, that line alone. The number and the lists go one by one: the number may be any, and the lists of any lengths.
pub fn put_output(
    out: &mut [u8],
    number: u8,
    run: Run,
    x1: &[i32],
    x2: &[i32],
    x3: &[i32],
    index: &[i32],
    mark: &[u8],
    records: &[RecordNumbers],
    v: &[i64],
    percent: &[u32],
) -> usize
    requires { length out.old ≡ room }
    ensures upper_bound { result ≤ room }
    ensures value { result ≡ length (output_of number run (book x1.now x2.now x3.now index.now mark.now records.now v.now) percent.now) }
    ensures out_after { out.new ≡ laid (output_of number run (book x1.now x2.now x3.now index.now mark.now records.now v.now) percent.now) 0 out.old }
{
    if number == 0 {
        let rows = Rows {
            x1,
            x2,
            x3,
            index,
            mark,
            records,
            v,
        };
        return put_rows(&run, &rows, percent, out);
    }
    rows::lay_refusal(line_after(run.months), number, 0, out)
}

// The same of all that the program holds.
pub fn put_heard<const N: usize>(heard: &Heard<N>, out: &mut [u8]) -> usize
    requires { length out.old ≡ room }
    ensures upper_bound { result ≤ room }
    ensures value { result ≡ length (laid_out (state_of heard.now)) }
    ensures out_after { out.new ≡ laid (laid_out (state_of heard.now)) 0 out.old }
{
    let number = match heard.session.refused {
        None => 0,
        Some(refusal) => refusal.number(),
    };
    put_output(
        out,
        number,
        heard.session.run,
        &heard.x1,
        &heard.x2,
        &heard.x3,
        &heard.index,
        &heard.mark,
        &heard.records,
        &heard.v,
        &heard.percent,
    )
}
