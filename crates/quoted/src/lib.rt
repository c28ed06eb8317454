// The start of a line of the input, kept so that a person can be told what was read where the line is refused.
//
// Every call here serves the printing program alone. It learns that a line was refused when a piece of the input has been
// taken, and which line that was; the start of that line is found by going over the same piece.
#![tactic(auto)]

ghost use Rattle.std.specs.Prelude.{◌≡◌};
ghost use mathlib.Core.List.{foldl};
ghost use Rattle.quoted.specs.Start.{fresh, heeded, last_line};

#[derive(Clone, Copy, Debug)]
pub struct Start {
    // The number of the line that is being read, counted from 1.
    pub line: u32,
    // Whether it is the line at fault, and has ended: then nothing more is looked at.
    pub ended: bool,
    // How many of its bytes are kept, the first ones, and whether it has more.
    pub kept: usize,
    pub more: bool,
    pub bytes: [u8; ROOM],
}

// How many of its bytes are kept at most.
pub const ROOM: usize = 40;

// Before the first byte of the input.
pub fn begin() -> Start
    ensures { result ≡ fresh }
{
    Start {
        line: 1,
        ended: false,
        kept: 0,
        more: false,
        bytes: [0; ROOM],
    }
}

impl Start {
    // One byte more.
    #[tactic(auto, unfolding(crate::specs::Start::heeded, crate::specs::Start::line_ended, crate::specs::Start::with_byte))]
    fn heed_byte(&mut self, last: u32, b: u8)
        ensures { self.new ≡ heeded last self.old b }
    {
        if self.ended {
            return;
        }
        if b == b'\n' {
            if self.line < last {
                self.line += 1;
                self.kept = 0;
                self.more = false;
            } else {
                self.ended = true;
            }
        } else if self.kept < ROOM {
            self.bytes[self.kept] = b;
            self.kept += 1;
        } else {
            self.more = true;
        }
    }
}

// A piece of the input more, up to the end of the line at fault, which is counted from 1; with none, up to the last line that
// a `u32` counts.
pub fn heed(s: Start, fault: Option<u32>, piece: &[u8]) -> Start
    ensures { result ≡ foldl (heeded (last_line fault)) s piece.now }
{
    let last = fault.unwrap_or(u32::MAX);
    let mut t = s;
    for b in piece {
        t.heed_byte(last, *b);
    }
    t
}
