// The program: a division file from standard input, and for the state and the division that its two arguments name a
// row a year, as year, twelve amounts in thousandths of an inch or a dash, months present. Where the reading stops,
// only which line was refused and why. `division_input` reads, `layout` judges a line, `rows` lays out; here bytes are only
// moved, and a refusal is put in words.
#![tactic(auto)]

ghost use Rattle.std.specs.Prelude.{◌≤◌};
ghost use Rattle.kept_line.specs.Kept.{most_kept};
ghost use Rattle.division_session.specs.Session.{seen, Held};

use division_session::{ROOM, Session};
use fields::{FIRST_VALUE, LAST_COLUMN, WIDTH};
use outline::Refusal;
use std::env::{Env, FillError};
use std::io;
use std::io::Read;
use stdio::Reads;

// The program's name and its two arguments.
const WORDS: usize = 3;

// The last column of the last value, and the columns of a value.
const LAST: u32 = LAST_COLUMN as u32;

const VALUE: u32 = WIDTH as u32;

// What a byte order mark begins with.
const BYTE_ORDER_MARK: u8 = 0xEF;

// What has been made of the input so far: the session, and room for the rows.
#[derive(Drop)]
struct Reading<'a> {
    session: Session,
    out: &'a mut [u8],
}

impl Reads for Reading<'_> {
    ghost holds = { λ r. Held (seen r.session) r.session.kept.line r.out.now };

    // Reads on until a line is refused.
    fn take(&mut self, piece: &[u8]) -> bool {
        division_input::take(&mut self.session, piece, self.out);
        self.session.refused.is_none()
    }
}

// 14, of what stands in the first ten columns of a line that begins with this byte.
fn heading_fault(first: Option<u8>) -> &'static str {
    if first == Some(BYTE_ORDER_MARK) {
        "a byte order mark; save the file without it"
    } else {
        "no digits"
    }
}

// 14, of what stands after the last value, its first byte that is no space given.
fn rest_fault(first: Option<u8>) -> &'static str {
    if first == Some(b'\r') {
        "a carriage return; the file has CR LF line ends, and the layout a line feed alone"
    } else {
        "something after the last value that is no space"
    }
}

// 14: where a line is at fault, of which the bytes are given that are kept of it.
fn explain_line(stderr: &impl Print, lines: u32, line: &[u8]) -> io::Result<()> {
    if line.len() < LAST_COLUMN {
        return println!(stderr;
            "division: line {lines}: it ends after column {}, and the layout has {LAST}",
            line.len()
        );
    }
    let column = layout::fault(line).unwrap_or(0);
    print!(stderr; "division: line {lines}, column {column}: ")?;
    if column < FIRST_VALUE {
        println!(stderr; "{}", heading_fault(line.first().copied()))
    } else if column <= LAST {
        let month = (column - FIRST_VALUE) / VALUE + 1;
        println!(stderr;
            "month {month} is neither -9.99 nor 0.00 to 100.00 inches, as the layout has them"
        )
    } else {
        println!(stderr; "{}", rest_fault(line.get(LAST_COLUMN).copied()))
    }
}

// 15: no line was of the state and the division.
fn explain_none(stderr: &impl Print, s: &Session) -> io::Result<()> {
    if s.lines == 0 {
        return println!(stderr; "division: the input is empty");
    }
    println!(stderr;
        "division: no line up to line {} is precipitation of state {}, division {}",
        s.lines, s.state, s.division
    )
}

// 16: the years do not follow one another.
fn explain_year(stderr: &impl Print, s: &Session) -> io::Result<()>
    requires { s.now.kept.count ≤ most_kept }
{
    let year = layout::year_of(s.kept.bytes()).unwrap_or(0);
    let next = s.next.unwrap_or(0);
    println!(stderr;
        "division: line {}: the year is {year}, and {next} was to follow",
        s.lines
    )
}

// Says in words why the reading stopped; the line that stopped it is still kept.
fn explain(stderr: &impl Print, s: &Session, refusal: Refusal) -> io::Result<()>
    requires { s.now.kept.count ≤ most_kept }
{
    match refusal {
        Refusal::OtherLine => explain_none(stderr, s),
        Refusal::NotTheYear => explain_year(stderr, s),
        _ => explain_line(stderr, s.lines, s.kept.bytes()),
    }
}

// Reads the input and writes what comes of it.
fn run_with(stdin: &mut impl Read, stdout: &impl Print, stderr: &impl Print, mut reading: Reading)
    requires { Held (seen reading.session) reading.session.kept.line reading.out.now }
{
    if stdio::read_all(stdin, &mut reading).is_err() {
        stdio::say_unread(stderr, b"division");
        return;
    }
    let Reading { mut session, out } = reading;
    division_input::finish(&mut session, out);
    if let Some(refusal) = session.refused {
        stdio::print_refusal(stdout, stderr, b"division", session.lines, refusal.number());
        let _ = explain(stderr, &session, refusal);
        return;
    }
    stdio::write_out(stdout, stderr, b"division", &out[..session.end]);
}

// Whether the program was started with an argument of this number.
fn has_argument(env: &impl Env, i: usize) -> bool {
    let mut text = [0u8; 1];
    !matches!(env.arg(i, &mut text), Err(FillError::NotPresent))
}

// An argument as a state or a division.
fn argument(env: &impl Env, i: usize) -> Option<u32> {
    let mut text = [0u8; 8];
    let n = env.arg(i, &mut text).ok()?;
    division_input::named(&text[..n])
}

// The state and the division, if there are two arguments and they name them.
fn arguments(env: &impl Env) -> Option<(u32, u32)> {
    if has_argument(env, WORDS) {
        return None;
    }
    Some((argument(env, 1)?, argument(env, 2)?))
}

// Reads and writes with what it lends. The room stands here and not in `main`, where it would be zeroed twice.
fn run(stdin: &mut impl Read, stdout: &impl Print, stderr: &impl Print, state: u32, division: u32) {
    let mut out = rows::make_room::<ROOM>();
    let reading = Reading {
        session: Session::begin(state, division),
        out: &mut out,
    };
    run_with(stdin, stdout, stderr, reading);
}

fn main(rt: HostRuntime) {
    let stderr = rt.stderr();
    let Some((state, division)) = arguments(&rt) else {
        let _ = println!(stderr;
            "usage: division STATE DIVISION <FILE, each of one or two digits, as 14 07"
        );
        return;
    };
    run(&mut rt.stdin(), &rt.stdout(), &stderr, state, division);
}
