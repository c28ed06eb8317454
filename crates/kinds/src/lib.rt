// A reading as C has it: C has no enum that carries a value, so it comes in as a struct. specs/FromC.antt says what it means. Its
// answer goes out as `door::Told`.
//
// For `card`, which has the calls.
#![tactic(auto)]

ghost use Rattle.std.specs.Prelude.{◌≡◌};
ghost use Rattle.kinds.specs.FromC.{reading_of_c};

use door::Reading;

// A reading as C hands it in: its kind, and the number that this kind reads.
#[repr(C)]
#[derive(Drop)]
pub struct CReading {
    pub kind: u32,
    pub whole: i32,
    pub measure: f32,
}

// The kinds of a reading. A kind that is none of these is not acceptable.
const MISSING: u32 = 0;

const WHOLE: u32 = 1;

const INCHES: u32 = 2;

const MILLIMETRES: u32 = 3;

// What a whole reading of no such kind says: it is below 0, and so not acceptable.
const NO_KIND: i32 = -1;

// The reading that it is.
pub fn reading_of(g: CReading) -> Reading
    ensures { result ≡ reading_of_c g }
{
    let kind = g.kind;
    if kind == MISSING {
        return Reading::Missing;
    }
    if kind == WHOLE {
        return Reading::Whole(g.whole);
    }
    if kind == INCHES {
        return Reading::Inches(g.measure);
    }
    if kind == MILLIMETRES {
        return Reading::Millimetres(g.measure);
    }
    Reading::Whole(NO_KIND)
}
