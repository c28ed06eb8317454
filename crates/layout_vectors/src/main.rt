// Reads lines of the layout from standard input and writes what the reader answers to each.
//
// A line of the input is what is asked for, two digits of a state, two of a division and four of a year, then a bar,
// and then the line itself, closed by a line feed. The answer is the number, the twelve amounts, the set of months
// present, its count and the first missing month.
#![tactic(auto)]

ghost use Rattle.std.specs.Prelude.{◌≤◌, length};

use fields::MONTHS;
use layout::Year;
use outline::Refusal;
use std::io::Read;

// Room for the input. What does not fit is not read.
const ROOM: usize = 262_144;

// The bytes before the line.
const ASKED: usize = 9;

// What is shown of a line that is refused.
const NONE: Year = Year {
    amounts: [0; MONTHS],
    present: 0,
    count: 0,
    first_missing: None,
};

// The number that four bytes make at most, taken as digits.
fn asked(digits: &[u8]) -> u32 {
    let mut n: u32 = 0;
    for b in digits {
        n = n % 1_000 * 10 + u32::from(*b % 16);
    }
    n
}

fn show(stdout: &impl Print, n: u32) {
    let _ = print!(stdout; " {n}");
}

fn show_year(stdout: &impl Print, number: u8, year: Year) {
    let _ = stdout.print(number);
    for amount in &year.amounts {
        show(stdout, *amount);
    }
    show(stdout, year.present);
    show(stdout, year.count);
    show(stdout, year.first_missing.unwrap_or(0));
    let _ = println!(stdout);
}

fn show_answer(stdout: &impl Print, answer: Result<Year, Refusal>) {
    match answer {
        Ok(year) => show_year(stdout, 0, year),
        Err(refusal) => show_year(stdout, refusal.number(), NONE),
    }
}

fn answer(stdout: &impl Print, part: &[u8]) {
    if part.len() < ASKED {
        return;
    }
    let state = asked(&part[..2]);
    let division = asked(&part[2..4]);
    let year = asked(&part[4..8]);
    show_answer(stdout, layout::read(&part[ASKED..], state, division, year));
}

fn answer_all(stdout: &impl Print, input: &[u8]) {
    for part in input.split(|b| *b == b'\n') {
        answer(stdout, part);
    }
}

// Reads until the buffer is full, the input ends or a read fails, and answers how many bytes there are at its start.
// Each read says how far it came, which no `for` counts.
fn read_full(stdin: &mut impl Read, buffer: &mut [u8]) -> usize
    ensures { result ≤ length buffer.new }
{
    let mut done = 0;
    while done < buffer.len() {
        match stdin.read(&mut buffer[done..]) {
            Ok(0) | Err(_) => return done,
            Ok(n) => done += n,
        }
    }
    done
}

fn main(rt: HostRuntime) {
    let mut input = [0u8; ROOM];
    let got = read_full(&mut rt.stdin(), &mut input);
    answer_all(&rt.stdout(), &input[..got]);
}
