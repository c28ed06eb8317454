// The printing program's reading: bytes in, months added, for lines of any length within fixed memory.
//
// Document 01: "A program reads one Z a line from standard input into a fresh run .. The first refused line
// (10, 12, 13) ends it". Every call here serves that program alone.
#![tactic(auto)]

ghost use Rattle.std.specs.Prelude.{◌≡◌, true};
ghost use mathlib.Core.List.{foldl};
ghost use Rattle.lines.specs.Line.{begun};
ghost use Rattle.starts.specs.Start.{run_for_z};
ghost use Rattle.refusals.specs.Book.{book};
ghost use Rattle.adding.specs.Taken.{result_of};
ghost use Rattle.drought.specs.Calls.{add_z};
ghost use Rattle.palmer_input.specs.ByLines.{state, state_of, fresh, number_of, of_added, percent_kept, with_z};
ghost use Rattle.palmer_input.specs.Input.{is_blank, line_closed, byte_fed, input_ended};

use adding::Added;
use lines::Line;
use outline::{MANY_CONSTANTS, Refusal};
use ranges::LEAST_CAPACITY;
use records::RecordNumbers;
use refusals::Lists;
use runs::Run;

// What has been read: the line so far, the refusal that ended the reading, and the run.
#[derive(Clone, Copy)]
pub struct Session {
    pub line: Line,
    pub refused: Option<Refusal>,
    pub run: Run,
}

// All that the program holds: what has been read, the lists that it lends to each call on the run, and each month's percent.
#[derive(Drop)]
pub struct Heard<const N: usize> {
    pub session: Session,
    pub x1: [i32; N],
    pub x2: [i32; N],
    pub x3: [i32; N],
    pub index: [i32; N],
    pub mark: [u8; N],
    pub records: [RecordNumbers; N],
    pub v: [i64; N],
    pub percent: [u32; N],
}

// The least capacity and the first calendar month: a run to which only Z are added looks at neither.
const CAPACITY: i32 = LEAST_CAPACITY as i32;

const JANUARY: i32 = 1;

// A run for Z alone, as a start gives it. It looks at no constant either, but no K of a run is 0.
fn run_for_z() -> Run
    ensures { result ≡ run_for_z }
{
    let ones = [1i32; MANY_CONSTANTS];
    let started = drought::start(&ones, CAPACITY, 0, 0, JANUARY);
    started.run
}

// A fresh run, and nothing read.
pub fn begin() -> Session
    ensures { result ≡ fresh }
{
    after_line(None, run_for_z())
}

// The refusal of an added Z, by the number of its answer, which is C's.
#[tactic(auto, unfolding(crate::specs::ByLines::of_added))]
fn refusal_of(number: u8) -> Option<Refusal>
    requires { of_added number ≡ true }
    ensures { number_of result ≡ number }
{
    match number {
        0 => None,
        1 => Some(Refusal::BadLists),
        7 => Some(Refusal::NotARun),
        10 => Some(Refusal::Full),
        12 => Some(Refusal::BadZ),
        _ => unreachable!(),
    }
}

// A month's percent, beside the columns; nothing where the month was refused.
fn put_percent(refused: Option<Refusal>, at: usize, value: u32, percent: &mut [u32])
    ensures { percent.new ≡ percent_kept (number_of refused) at value percent.old }
{
    if refused.is_none() && at < percent.len() {
        percent[at] = value;
    }
}

// The reading goes on with a new line, or is refused.
fn after_line(refused: Option<Refusal>, run: Run) -> Session
    ensures { result ≡ record { line = begun; refused = refused; run = run } }
{
    Session {
        line: lines::begin(),
        refused,
        run,
    }
}

// Whether a line has not begun.
#[tactic(auto, unfolding(crate::specs::Input::is_blank))]
fn is_blank(line: Line) -> bool
    ensures { result ≡ is_blank line }
{
    !(line.minus || line.digits || line.spoiled)
}

// Adds a Z to the run that these lists hold. The struct of their borrows ends here: an answer names each list as it came back.
fn add_z(
    run: Run,
    z: i32,
    x1: &mut [i32],
    x2: &mut [i32],
    x3: &mut [i32],
    index: &mut [i32],
    mark: &mut [u8],
    records: &mut [RecordNumbers],
    v: &mut [i64],
) -> Added
    ensures { result_of result (book x1.new x2.new x3.new index.new mark.new records.new v.new) ≡ add_z run z (book x1.old x2.old x3.old index.old mark.old records.old v.old) }
{
    let mut lists = Lists {
        x1,
        x2,
        x3,
        index,
        mark,
        records,
        v,
    };
    drought::add_z(run, z, &mut lists)
}

// A line's Z added. The lists go one by one, here and below, since a caller may lend seven of any lengths.
fn add_line(
    s: &mut Session,
    z: i32,
    x1: &mut [i32],
    x2: &mut [i32],
    x3: &mut [i32],
    index: &mut [i32],
    mark: &mut [u8],
    records: &mut [RecordNumbers],
    v: &mut [i64],
    percent: &mut [u32],
)
    ensures { state s.new (book x1.new x2.new x3.new index.new mark.new records.new v.new) percent.new ≡ with_z s.old.run z (book x1.old x2.old x3.old index.old mark.old records.old v.old) percent.old }
{
    let at = s.run.months as usize;
    let a = add_z(s.run, z, x1, x2, x3, index, mark, records, v);
    let refused = refusal_of(a.number);
    put_percent(refused, at, a.figures.percent, percent);
    *s = after_line(refused, a.run);
}

// A line closed: its Z added, or its refusal.
fn close_line(
    s: &mut Session,
    x1: &mut [i32],
    x2: &mut [i32],
    x3: &mut [i32],
    index: &mut [i32],
    mark: &mut [u8],
    records: &mut [RecordNumbers],
    v: &mut [i64],
    percent: &mut [u32],
)
    ensures { state s.new (book x1.new x2.new x3.new index.new mark.new records.new v.new) percent.new ≡ line_closed s.old.line s.old.run (book x1.old x2.old x3.old index.old mark.old records.old v.old) percent.old }
{
    match lines::finish(s.line) {
        Ok(z) => add_line(s, z, x1, x2, x3, index, mark, records, v, percent),
        Err(refusal) => *s = after_line(Some(refusal), s.run),
    }
}

// Some bytes more. After a refusal nothing more is looked at.
pub fn take(
    mut s: Session,
    bytes: &[u8],
    x1: &mut [i32],
    x2: &mut [i32],
    x3: &mut [i32],
    index: &mut [i32],
    mark: &mut [u8],
    records: &mut [RecordNumbers],
    v: &mut [i64],
    percent: &mut [u32],
) -> Session
    ensures { state result (book x1.new x2.new x3.new index.new mark.new records.new v.new) percent.new ≡ foldl byte_fed (state s (book x1.old x2.old x3.old index.old mark.old records.old v.old) percent.old) bytes.now }
{
    for b in bytes {
        if s.refused.is_some() {
            return s;
        }
        if *b == b'\n' {
            close_line(&mut s, x1, x2, x3, index, mark, records, v, percent);
        } else {
            s.line = lines::feed(s.line, *b);
        }
    }
    s
}

// The end of the input: a line that has begun is closed by it.
pub fn end(
    mut s: Session,
    x1: &mut [i32],
    x2: &mut [i32],
    x3: &mut [i32],
    index: &mut [i32],
    mark: &mut [u8],
    records: &mut [RecordNumbers],
    v: &mut [i64],
    percent: &mut [u32],
) -> Session
    ensures { state result (book x1.new x2.new x3.new index.new mark.new records.new v.new) percent.new ≡ input_ended (state s (book x1.old x2.old x3.old index.old mark.old records.old v.old) percent.old) }
{
    if s.refused.is_none() && !is_blank(s.line) {
        close_line(&mut s, x1, x2, x3, index, mark, records, v, percent);
    }
    s
}

impl<const N: usize> Heard<N> {
    // Some bytes more.
    pub fn take(&mut self, bytes: &[u8])
        ensures { state_of self.new ≡ foldl byte_fed (state_of self.old) bytes.now }
    {
        self.session = take(
            self.session,
            bytes,
            &mut self.x1,
            &mut self.x2,
            &mut self.x3,
            &mut self.index,
            &mut self.mark,
            &mut self.records,
            &mut self.v,
            &mut self.percent,
        );
    }

    // The end of the input.
    pub fn end(&mut self)
        ensures { state_of self.new ≡ input_ended (state_of self.old) }
    {
        self.session = end(
            self.session,
            &mut self.x1,
            &mut self.x2,
            &mut self.x3,
            &mut self.index,
            &mut self.mark,
            &mut self.records,
            &mut self.v,
            &mut self.percent,
        );
    }
}
