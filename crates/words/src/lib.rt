// What the printing program says on standard error: of a refused line its number, what was read, what was expected and
// what the refusal's number means. Every call here serves that program alone, which lends its standard error. No contract says
// what is written, so these functions are proved safe and ending, and tests/program.py holds the words to a table.
#![tactic(auto)]

ghost use Rattle.std.specs.Prelude.{◌<◌, length};

use outline::Refusal;
use quoted::{ROOM, Start};
use stdio::{say, say_number};

// A byte as it is quoted: a question mark stands for one that cannot be shown.
fn shown(b: u8) -> u8 {
    match b {
        b' '..=b'~' => b,
        _ => b'?',
    }
}

// What was read.
fn say_read(stderr: &impl Print, start: &Start) {
    let mut text = start.bytes;
    for b in text.iter_mut() {
        *b = shown(*b);
    }
    let _ = print!(stderr; "; read \"");
    say(stderr, &text[..start.kept.min(ROOM)]);
    let _ = print!(stderr; "{}\"", if start.more { ".." } else { "" });
}

// A space, at a place of the line.
fn space_fault(text: &[u8], at: usize) -> &'static str {
    if at == 0 {
        return "a space before the number";
    }
    if text.iter().skip(at).all(|b| *b == b' ') {
        return "a space after the number";
    }
    "a space: a line has one number"
}

// A byte that stands where no number has it, by what it is.
fn byte_fault(b: u8) -> &'static str {
    match b {
        b'\t' => "a tab",
        b'"' => "a quote mark",
        b',' => "a comma: a line has one number, in whole thousandths",
        b'-' => "a minus that is not in front: a line has one number and no date",
        b'.' => "a point: a number is in whole thousandths, as 1040 for 1.04",
        b'/' | b':' => "a date: a line has one number and nothing beside it",
        b';' => "a semicolon: a line has one number and nothing beside it",
        b'A'..=b'Z' | b'a'..=b'z' => "a letter",
        128..=255 => "a byte above 127, which is no plain text",
        _ => "no digit",
    }
}

// The start of the first line, whose first byte is none that is told apart wherever it stands: a byte order mark of UTF-8 or of
// UTF-16, or a word.
fn first_fault(text: &[u8], b: u8) -> &'static str {
    match text {
        [0xEF, 0xBB, 0xBF, ..] => "a byte order mark: save the file without it",
        [0xFF, 0xFE, ..] | [0xFE, 0xFF, ..] => {
            "a byte order mark of UTF-16: save the file as plain text"
        }
        _ if b >= 128 => byte_fault(b),
        _ => "a header, or another word: the file has numbers alone",
    }
}

// Whether a byte is told apart wherever it stands.
fn is_mark(b: u8) -> bool {
    matches!(b, b'\t' | b'+' | b',' | b'-' | b'.')
}

// The fault at a place of the line.
fn fault(line: u32, text: &[u8], at: usize) -> &'static str
    requires { at < length text.now }
{
    let b = text[at];
    match b {
        b'\r' if at + 1 == text.len() => {
            "a carriage return at the end: the lines end in CR LF, and a line feed alone is taken"
        }
        b'\r' => "a carriage return",
        b' ' => space_fault(text, at),
        b'+' => "a plus sign: a number above 0 has none",
        _ if line == 1 && at == 0 && !is_mark(b) => first_fault(text, b),
        _ => byte_fault(b),
    }
}

// 13: where the line is at fault.
fn explain_line(stderr: &impl Print, line: u32, text: &[u8], more: bool) {
    let at = lines::spoiled_at(text);
    let _ = if at < text.len() {
        print!(stderr; ", column {}: {}", at + 1, fault(line, text, at))
    } else if more {
        print!(stderr; ": past column 40 something that is no digit")
    } else if at == 0 {
        print!(stderr; ": it is blank")
    } else {
        print!(stderr; ", column 2: no digit after the minus")
    };
}

// The numbers of the two refusals that are told of a whole line.
const FULL: u8 = Refusal::Full as u8;

const BAD_Z: u8 = Refusal::BadZ as u8;

// Says in words why a line was refused, by the refusal's number; any other number is told as 13.
pub fn explain(stderr: &impl Print, line: u32, number: u8, start: &Start) {
    say(stderr, b"palmer: line ");
    say_number(stderr, line);
    let expected = match number {
        FULL => {
            let _ = print!(stderr; ": a month too many");
            "at most 2400 lines; 10 means: months already equal the column length"
        }
        BAD_Z => {
            let _ = print!(stderr; ": outside the range of Z");
            "-4000000 to 4000000; 12 means: Z outside its range"
        }
        _ => {
            explain_line(
                stderr,
                line,
                &start.bytes[..start.kept.min(ROOM)],
                start.more,
            );
            "a whole number of thousandths, as -3000 or 1040; 13 means: a line is not a whole number"
        }
    };
    say_read(stderr, start);
    let _ = println!(stderr; "; expected {expected}");
}
