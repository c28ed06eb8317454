// Standard input, output and error, as the programs `palmer` and `division` use them. No contract says which bytes the system
// is given or gives, so these functions are proved safe and ending; tests/program.py and tests/division.py hold the words to
// tables.
#![tactic(auto)]

use rows::MOST_ROW;
use std::io;
use std::io::Read;

// How many bytes a piece of the input has at most.
const MOST_BYTES: usize = 65_536;

// What a program makes of its input, which comes in pieces.
pub trait Reads {
    // What is so of it before the first piece and after each.
    ghost holds: { Self → Type 0 };

    // Takes a piece more, and answers whether it reads on.
    fn take(&mut self, piece: &[u8]) -> bool
        requires { holds self.old }
        ensures { holds self.new };
}

// Reads until the input ends or the reader reads no further, or answers why a read failed. A proved loop has to end and an
// input need not: no run uses up so many reads.
pub fn read_all<R: Reads>(stdin: &mut impl Read, reader: &mut R) -> io::Result<()>
    requires { R.holds reader.old }
    ensures { R.holds reader.new }
{
    let mut buffer = [0u8; MOST_BYTES];
    for _ in 0..u64::MAX {
        let n = stdin.read(&mut buffer)?;
        if n == 0 || !reader.take(&buffer[..n]) {
            return Ok(());
        }
    }
    Ok(())
}

// Says a text on standard error, which is lent. Where that cannot be written, nothing more can be said.
pub fn say(stderr: &impl Print, text: &[u8]) {
    let _ = stderr.write_all(text);
}

// Says a number there.
pub fn say_number(stderr: &impl Print, n: u32) {
    let _ = stderr.print(n);
}

// Says that the program of this name cannot read its input. The name is any bytes, which `println!` cannot take, and each text is
// tried though the one before it failed.
pub fn say_unread(stderr: &impl Print, program: &[u8]) {
    say(stderr, program);
    say(stderr, b": the input cannot be read\n");
}

// Writes a text to standard output, or says that the program of this name cannot.
pub fn write_out(stdout: &impl Print, stderr: &impl Print, program: &[u8], text: &[u8]) {
    if stdout.write_all(text).is_err() {
        say(stderr, program);
        say(stderr, b": the output cannot be written\n");
    }
}

// Writes which line was refused, and why.
pub fn print_refusal(
    stdout: &impl Print,
    stderr: &impl Print,
    program: &[u8],
    line: u32,
    number: u8,
) {
    let mut out = [0u8; MOST_ROW];
    let end = rows::lay_refusal(line, number, 0, &mut out);
    write_out(stdout, stderr, program, &out[..end]);
}
