// Readings at the door: what a gauge says, as whole thousandths of an inch, a trace, or a refusal.
//
// A binary32 number is judged by comparisons and by the bits of its pattern alone; no float is added,
// multiplied or rounded.
#![tactic(auto)]

ghost use Rattle.std.specs.Prelude.{◌≡◌, ◌<◌, ◌≤◌, T};
ghost use Rattle.door.specs.Exact.{within, above_zero, nearest_to};
ghost use Rattle.door.specs.Readings.{whole, inches, millimetres, reading, month};
ghost use Rattle.door.specs.Outcome.{accepted_as, outcome, told_as, told_month};
ghost use Rattle.door.specs.Kinds.{kind_number};

use outline::Refusal;

// A reading is one of four.
#[derive(Drop)]
pub enum Reading {
    // Whole thousandths of an inch, 0 to 100,000.
    Whole(i32),
    // Inches, 0 to 100.
    Inches(f32),
    // Millimetres, 0 to 2,540.
    Millimetres(f32),
    Missing,
}

// What a reading that is not refused comes to. `accepted_as` gives each case the paper's thousandths and kind.
#[derive(Clone, Copy, Debug, PartialEq, Eq)]
pub enum Amount {
    // Thousandths of an inch, of which 0 is no rain and any other number was measured.
    Water(u32),
    // Rain, but too little to measure. It counts as no water.
    Trace,
}

impl Amount {
    // In thousandths of an inch.
    pub fn water(self) -> u32
        ensures { result ≡ (accepted_as self).water }
    {
        match self {
            Amount::Water(n) => n,
            Amount::Trace => 0,
        }
    }

    // How it was read.
    pub fn kind(self) -> Kind
        ensures { kind_number result ≡ (accepted_as self).kind }
    {
        match self {
            Amount::Water(0) => Kind::Nothing,
            Amount::Water(_) => Kind::Measured,
            Amount::Trace => Kind::Trace,
        }
    }
}

// The kinds of an amount, with their numbers 0, 1 and 2. A refused reading's is 0.
#[derive(Clone, Copy, Debug, PartialEq, Eq)]
pub enum Kind {
    Nothing,
    Trace,
    Measured,
}

impl Kind {
    // Its number.
    pub fn number(self) -> u8
        ensures { result ≡ kind_number self }
    {
        self as u8
    }
}

// An answer as its three numbers: 0, 8 or 9; its kind; and its thousandths of an inch.
#[repr(C)]
#[derive(Drop)]
pub struct Told {
    pub number: u8,
    pub kind: u8,
    pub water: u32,
}

// One month's precipitation and PE, in inches.
#[repr(C)]
#[derive(Drop)]
pub struct MonthInches {
    pub p: f32,
    pub pe: f32,
}

#[derive(Drop)]
pub struct MonthTold {
    pub p: Told,
    pub pe: Told,
}

// The kinds of a month's two readings.
#[repr(C)]
#[derive(Default, Drop)]
pub struct MonthKinds {
    pub p: u8,
    pub pe: u8,
}

// The ends of the three ranges.
const MOST_WHOLE: i32 = 100_000;

const MOST_INCHES: f32 = 100.0;

const MOST_MILLIMETRES: f32 = 2540.0;

// The whole number nearest to x * per / of. x is its fraction times 2 ^ (exponent - 150), so that is
// fraction * per over of * 2 ^ (150 - exponent), and nearest to a / (of * 2 ^ k) is (2 a / 2 ^ k + of) / (2 of), each
// quotient cut to a whole number. Below exponent 100, x is less than 2 ^ -27, and 5,000 times that is less than a half: the
// answer is 0.
fn nearest_to(x: f32, per: u64, of: u32) -> u32
    requires { T (within 2540 x) × (per ≤ 5000) × (0 < of) × (of ≤ 5000) }
    ensures { result ≡ nearest_to per of x }
{
    let bits: u32 = f32::to_bits(x);
    let exponent: u32 = bits % 0x8000_0000 / 0x80_0000;
    if exponent < 100 {
        return 0;
    }
    // The pattern leaves out the fraction's first binary digit, which is 1.
    let fraction: u32 = bits % 0x80_0000 + 0x80_0000;
    let doubled: u64 = (fraction as u64) * (2 * per) >> (150 - exponent);
    (doubled as u32 + of) / (2 * of)
}

// Whether a number is above zero: negative zero is not.
fn above_zero(x: f32) -> bool
    ensures { result ≡ above_zero x }
{
    x > 0.0
}

// A number of inches. A NaN passes no comparison, so both tests must pass. What is above zero and comes to no thousandth is a
// trace. One function for inches and millimetres would take the end of the range twice, as a float for the test and as a whole
// number for the promise; one for the three ways out costs a reading some instructions.
fn read_inches(x: f32) -> Result<Amount, Refusal>
    ensures { outcome result ≡ inches x }
{
    if x >= 0.0 && x <= MOST_INCHES {
        let n = nearest_to(x, 1000, 1);
        if n != 0 {
            return Ok(Amount::Water(n));
        }
        if above_zero(x) {
            return Ok(Amount::Trace);
        }
        return Ok(Amount::Water(0));
    }
    Err(Refusal::BadReading)
}

// A number of millimetres, of which 127 are 5,000 thousandths of an inch.
fn read_millimetres(x: f32) -> Result<Amount, Refusal>
    ensures { outcome result ≡ millimetres x }
{
    if x >= 0.0 && x <= MOST_MILLIMETRES {
        let n = nearest_to(x, 5000, 127);
        if n != 0 {
            return Ok(Amount::Water(n));
        }
        if above_zero(x) {
            return Ok(Amount::Trace);
        }
        return Ok(Amount::Water(0));
    }
    Err(Refusal::BadReading)
}

// A whole number of thousandths.
fn read_whole(n: i32) -> Result<Amount, Refusal>
    ensures { outcome result ≡ whole n }
{
    if n >= 0 && n <= MOST_WHOLE {
        return Ok(Amount::Water(n as u32));
    }
    Err(Refusal::BadReading)
}

// A reading: 8 or 9.
pub fn read(r: Reading) -> Result<Amount, Refusal>
    ensures { outcome result ≡ reading r }
{
    match r {
        Reading::Whole(n) => read_whole(n),
        Reading::Inches(x) => read_inches(x),
        Reading::Millimetres(x) => read_millimetres(x),
        Reading::Missing => Err(Refusal::NoReading),
    }
}

// An answer as its three numbers.
pub fn tell(a: Result<Amount, Refusal>) -> Told
    ensures { told_as result ≡ outcome a }
{
    match a {
        Ok(amount) => Told {
            number: 0,
            kind: amount.kind().number(),
            water: amount.water(),
        },
        Err(refusal) => Told {
            number: refusal.number(),
            kind: Kind::Nothing.number(),
            water: 0,
        },
    }
}

// One month's precipitation and PE that arrive together, each by itself.
pub fn read_month(q: MonthInches) -> MonthTold
    ensures { told_month result ≡ month q }
{
    let p = tell(read_inches(q.p));
    let pe = tell(read_inches(q.pe));
    MonthTold { p, pe }
}
