// Reads readings from standard input, a line each, and writes what the door answers to each.
//
// A line is 20 bytes: a letter, a space, eight hexadecimal digits, a space, eight more, a line feed. The
// letter is w (whole thousandths, the first eight digits as an i32), i (inches) or m (millimetres, the first
// eight as a binary32 pattern), p (one month's two inches), or another (missing). The answer is the paper's
// number, the thousandths and the kind; for p all three for precipitation and then for PE.
#![tactic(auto)]

ghost use Rattle.std.specs.Prelude.{◌+◌, ◌≤◌, ◌<◌, length};

use door::{MonthInches, Reading, Told};
use std::io::Read;
use std::num::f32_from_bits_with_nan;

const LINE: usize = 20;

// How many lines are read at most.
const MOST_LINES: u32 = 100_000;

fn digit(b: u8) -> u32
    ensures { result < 16 }
{
    match b {
        b'0'..=b'9' => (b - b'0') as u32,
        b'a'..=b'f' => (b - b'a') as u32 + 10,
        _ => 0,
    }
}

// Eight hexadecimal digits.
fn word(s: &[u8], at: usize) -> u32
    requires { at + 8 ≤ length s.now }
{
    let mut n: u32 = 0;
    for b in &s[at..at + 8] {
        n = n % 0x1000_0000 * 16 + digit(*b);
    }
    n
}

fn show(stdout: &impl Print, t: Told) {
    let _ = print!(stdout; "{} {} {}", t.number, t.water, t.kind);
}

// A binary32 pattern is the number that it stands for: the language has one NaN, so any NaN's pattern is that.
fn answer(stdout: &impl Print, kind: u8, first: u32, second: u32) {
    if kind == b'p' {
        let told = door::read_month(MonthInches {
            p: f32_from_bits_with_nan(first),
            pe: f32_from_bits_with_nan(second),
        });
        show(stdout, told.p);
        let _ = print!(stdout; " ");
        show(stdout, told.pe);
    } else {
        let reading = match kind {
            b'w' => Reading::Whole(first.cast_signed()),
            b'i' => Reading::Inches(f32_from_bits_with_nan(first)),
            b'm' => Reading::Millimetres(f32_from_bits_with_nan(first)),
            _ => Reading::Missing,
        };
        show(stdout, door::tell(door::read(reading)));
    }
    let _ = println!(stdout);
}

fn main(rt: HostRuntime) {
    let mut stdin = rt.stdin();
    let stdout = rt.stdout();
    let mut line = [0u8; LINE];
    for _ in 0..MOST_LINES {
        if stdin.read_exact(&mut line).is_err() {
            return;
        }
        answer(&stdout, line[0], word(&line, 2), word(&line, 11));
    }
}
