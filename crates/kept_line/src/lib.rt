// A line of a division file that comes in pieces: where it ends in a piece, and what is kept of it.
//
// Of a line the bytes of the layout's columns are kept, and after them the first that is no space: that is enough to
// tell what the whole line says, so a line of any length is read within fixed memory. What is kept is specs/Kept.antt.
// Everything here is for the crates `division_session`, which holds what is kept, and `division_input`.
#![tactic(auto)]

ghost use Rattle.std.specs.Prelude.{◌≡◌, ◌+◌, ◌≤◌, length, take, drop, replicate};
ghost use Rattle.fields.specs.Columns.{last_column};
ghost use Rattle.kept_line.specs.Kept.{until_feed, most_kept, is_kept, kept_of, byte_into, part_kept};

use fields::LAST_COLUMN;
use memchr::memchr;

// Where the line ends that goes on at `from`: at its line feed, or where the piece ends.
pub fn line_end(piece: &[u8], from: usize) -> usize
    requires { from ≤ length piece.now }
    ensures { result ≡ from + length (until_feed (drop from piece.now)) }
{
    match memchr(b'\n', &piece[from..]) {
        Some(feed) => from + feed,
        None => piece.len(),
    }
}

// The bytes that a line is told by.
pub const KEPT: usize = LAST_COLUMN + 1;

// What is kept of a line: how many bytes, and the bytes, which stand first. That they are no more than there is room for
// is no ghost field, which the records of specs/Kept.antt would have to hold.
#[derive(Drop)]
pub struct Kept {
    pub count: usize,
    pub line: [u8; KEPT],
}

impl Kept {
    // Of a line of which nothing has come.
    pub fn new() -> Self
        ensures { result ≡ kept_of 0 (replicate most_kept 0) }
    {
        Kept {
            count: 0,
            line: [0; KEPT],
        }
    }

    pub fn bytes(&self) -> &[u8]
        requires { self.now.count ≤ most_kept }
        ensures { result.now ≡ take self.now.count self.now.line }
    {
        &self.line[..self.count]
    }

    // The next line begins.
    pub fn clear(&mut self)
        ensures { self.new ≡ kept_of 0 self.old.line }
    {
        self.count = 0;
    }

    // Whether the line's next byte is kept: those of the layout's columns are, and after them the first that is no
    // space. Each way out by itself: the tests joined by && and || cost a byte past the columns half as much again.
    fn keeps(&self, b: u8) -> bool
        ensures { result ≡ is_kept self.now.count b }
    {
        if self.count < LAST_COLUMN {
            return true;
        }
        if self.count > LAST_COLUMN {
            return false;
        }
        b != b' '
    }

    // One byte more of the line.
    fn keep_byte(&mut self, b: u8)
        ensures { self.new ≡ byte_into self.old b }
    {
        if self.keeps(b) {
            self.line[self.count] = b;
            self.count += 1;
        }
    }

    // A part that stands in the layout's columns. `keep_byte` would do the same; this is one copy, and nearly all of an
    // input goes through it.
    fn keep_columns(&mut self, part: &[u8])
        requires { self.old.count + length part.now ≤ last_column }
        ensures { self.new ≡ part_kept self.old part.now }
    {
        let end = self.count + part.len();
        self.line[self.count..end].copy_from_slice(part);
        self.count = end;
    }

    // A part of the line more.
    pub fn keep_part(&mut self, part: &[u8])
        ensures { self.new ≡ part_kept self.old part.now }
    {
        let left = LAST_COLUMN.saturating_sub(self.count);
        let (columns, rest) = part.split_at(left.min(part.len()));
        if !columns.is_empty() {
            self.keep_columns(columns);
        }
        for b in rest {
            self.keep_byte(*b);
        }
    }
}
