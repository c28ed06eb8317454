// The outline's numbers, each once: what may be handed in, what the rules are made with, and the refusals.
// specs/Numbers.antt and specs/Refusals.antt have the same numbers, each under the outline's own sentence; 14 to 16, 24 and 25,
// which are of a line of a division file, stand so in the crate `fields`. specs/Refused.antt gives each refusal its number.
#![tactic(auto)]

ghost use Rattle.std.specs.Prelude.{◌≡◌};
ghost use Rattle.outline.specs.Refused.{refusal_number, answer_number};

// ---- what may be handed in

// The most months of a run, and the longest that lent lists may be.
pub const MOST_MONTHS: usize = 12_000;

// The sixty constants of a station, five to a calendar month.
pub const MANY_CONSTANTS: usize = 60;

pub const MANY_OF_A_MONTH: usize = 5;

// The months of a year.
pub const LAST_MONTH: u32 = 12;

// The most of Z and of an X, in size, and of what a month can add to V.
pub const MOST_Z: i32 = 4_000_000;

pub const MOST_X: i64 = 13_000_000;

pub const MOST_U: i64 = 4_000_150;

// ---- what the rules are made with

// next(x) = (2691 x + 1000 Z) / 3000; U, E and Q have the same two weights.
pub const WEIGHT_OF_X: i64 = 2_691;

pub const WEIGHT_OF_Z: i64 = 1_000;

pub const NEXT_DIVISOR: i64 = 3_000;

// A spell is in force beyond this, in size.
pub const IN_FORCE: i32 = 500;

// A spell is founded from this on, in size.
pub const FOUNDS: i32 = 1_000;

// What a month adds to Z, in the drought's sense, to make U.
pub const U_OFFSET: i64 = 150;

// What is taken from -2691 X3 to make E.
pub const E_OFFSET: i64 = 1_500_000;

// ---- refusals

// Why a call is refused, with the number that it has outside: in the answers that C is handed and in what the programs print.
#[derive(Clone, Copy, Debug, PartialEq, Eq)]
pub enum Refusal {
    BadLists = 1,
    NotSixty = 2,
    BadConstant = 3,
    BadCapacity = 4,
    BadStorage = 5,
    BadMonth = 6,
    NotARun = 7,
    NoReading = 8,
    BadReading = 9,
    Full = 10,
    NoSuchRow = 11,
    BadZ = 12,
    NotANumber = 13,
    Malformed = 14,
    OtherLine = 15,
    NotTheYear = 16,
    Waterless = 17,
    FewYears = 18,
    BadGamma = 19,
    BadK = 20,
    ZeroK = 21,
    Unfit = 24,
    NoRoom = 25,
}

impl Refusal {
    // Its number.
    pub fn number(self) -> u8
        ensures { result ≡ refusal_number self }
    {
        self as u8
    }
}

// The number of an answer: 0 where nothing is refused.
pub fn number(answer: Result<(), Refusal>) -> u8
    ensures { result ≡ answer_number answer }
{
    match answer {
        Ok(()) => 0,
        Err(refusal) => refusal.number(),
    }
}
