// A line of input read as a Z, byte by byte, so that a line of any length is judged within fixed memory.
//
// Document 01: "A line is an optional minus and one or more digits, closed by a line feed or the end of
// input; such a number outside the range of Z, however long, is 12."
#![tactic(auto)]

ghost use Rattle.std.specs.Prelude.{◌≡◌, true};
ghost use Rattle.text.specs.Bytes.{is_digit, and_digit};
ghost use Rattle.lines.specs.Reading.{held, opens, fed, finished, read_of};
ghost use Rattle.lines.specs.Line.{begun};
ghost use Rattle.lines.specs.Fault.{sign_length, spoiled_at};

use outline::{MOST_Z, Refusal};

// A line so far. Its bytes are given one by one, without the line feed.
#[derive(Clone, Copy, Debug, Default, PartialEq, Eq)]
pub struct Line {
    // Whether a minus has come.
    pub minus: bool,
    // Whether a digit has come.
    pub digits: bool,
    // Whether anything has come that no number has there.
    pub spoiled: bool,
    // What the digits say, or one above the range of Z where they say more.
    pub size: u32,
}

// The most of Z in size.
const MOST_SIZE: u32 = MOST_Z as u32;

// Where a size above the range of Z is held.
const HELD: u32 = MOST_SIZE + 1;

// The size after one digit more. A size that is held is let grow no further, so no sum comes near the
// end of a u32.
#[tactic(auto, unfolding(crate::specs::Reading::held, text::specs::Bytes::is_digit))]
fn grown(size: u32, b: u8) -> u32
    requires { is_digit b ≡ true }
    ensures { result ≡ held (and_digit size b) }
{
    if size > MOST_SIZE {
        return HELD;
    }
    let n = 10 * size + (b - b'0') as u32;
    n.min(HELD)
}

// Whether b is a minus that comes before anything else.
#[tactic(auto, unfolding(crate::specs::Reading::opens))]
fn is_opening(l: Line, b: u8) -> bool
    ensures { result ≡ opens l b }
{
    !(l.minus || l.digits) && b == b'-'
}

// Before the first byte.
pub fn begin() -> Line
    ensures { result ≡ begun }
{
    Line::default()
}

// One byte more.
#[tactic(auto, unfolding(crate::specs::Reading::fed))]
pub fn feed(l: Line, b: u8) -> Line
    ensures { result ≡ fed l b }
{
    if text::is_digit(b) {
        return Line {
            digits: true,
            size: grown(l.size, b),
            ..l
        };
    }
    if is_opening(l, b) {
        return Line {
            minus: true,
            digits: false,
            ..l
        };
    }
    Line { spoiled: true, ..l }
}

// The line ends: 0 with a Z within its range, 12 where the number is outside it, 13 where it is not a whole number.
#[tactic(auto, unfolding(crate::specs::Reading::finished, crate::specs::Line::signed))]
pub fn finish(l: Line) -> Result<i32, Refusal>
    ensures { read_of result ≡ finished l }
{
    if l.spoiled || !l.digits {
        return Err(Refusal::NotANumber);
    }
    if l.size > MOST_SIZE {
        return Err(Refusal::BadZ);
    }
    let z = l.size as i32;
    Ok(if l.minus { -z } else { z })
}

// How many bytes the sign of a line has: 1 where it begins with a minus.
#[tactic(auto, unfolding(crate::specs::Fault::sign_length, text::specs::Bytes::negative))]
fn sign_length(line: &[u8]) -> usize
    ensures { result ≡ sign_length line.now }
{
    match line {
        [b'-', ..] => 1,
        _ => 0,
    }
}

// The place of the first byte that no whole number has there, to tell a person; the line's length where there is none.
pub fn spoiled_at(line: &[u8]) -> usize
    ensures { result ≡ spoiled_at line.now }
{
    for i in sign_length(line)..line.len() {
        if !text::is_digit(line[i]) {
            return i;
        }
    }
    line.len()
}
