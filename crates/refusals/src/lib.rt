// The refusals of the calls on a run, each call's in the outline's order. Nothing is asked of what is handed in.
//
// Whether its lists can be lent a call asks once (`lent_length`, `lengths_fit`). All else is then asked of their length, of the
// run, its constants apart, and of the records: so seven lists are not handed on to be measured.
//
// For the crates that make the calls: `drought` and `season`.
#![tactic(auto)]

ghost use Rattle.std.specs.Prelude.{◌≡◌, ◌≤◌, length};
ghost use Rattle.outline.specs.Refused.{answer_number};
ghost use Rattle.runs.specs.Progress.{run_of};
ghost use Rattle.refusals.specs.Book.{columns_fit, lengths_fit};
ghost use Rattle.refusals.specs.Refusals.{is_run_for, room_refusal};
ghost use Rattle.refusals.specs.Lists.{held, read};
ghost use Rattle.refusals.specs.Lent.{lent_long, lent_length, reading_refusal, run_refusal_for, water_refusal_for, z_refusal_for, row_refusal_for};

use outline::{MANY_CONSTANTS, Refusal};
use records::RecordNumbers;
use runs::Progress;

// The seven lists of a run, lent for writing.
#[derive(Drop)]
pub struct Lists<'a> {
    pub x1: &'a mut [i32],
    pub x2: &'a mut [i32],
    pub x3: &'a mut [i32],
    pub index: &'a mut [i32],
    pub mark: &'a mut [u8],
    pub records: &'a mut [RecordNumbers],
    pub v: &'a mut [i64],
}

// The same lent for reading.
#[derive(Clone, Copy)]
pub struct Rows<'a> {
    pub x1: &'a [i32],
    pub x2: &'a [i32],
    pub x3: &'a [i32],
    pub index: &'a [i32],
    pub mark: &'a [u8],
    pub records: &'a [RecordNumbers],
    pub v: &'a [i64],
}

impl Lists<'_> {
    // For reading.
    pub fn rows(&self) -> Rows<'_>
        ensures { read result ≡ held self.now }
    {
        Rows {
            x1: self.x1,
            x2: self.x2,
            x3: self.x3,
            index: self.index,
            mark: self.mark,
            records: self.records,
            v: self.v,
        }
    }
}

impl Rows<'_> {
    // Whether they can be lent: 1.
    pub fn fit(&self) -> bool
        ensures { result ≡ columns_fit (read self.now) }
    {
        lengths_fit(
            self.x1.len(),
            self.x2.len(),
            self.x3.len(),
            self.index.len(),
            self.mark.len(),
            self.records.len(),
            self.v.len(),
        )
    }

    // The length that all seven have, and 0 where they cannot be lent.
    pub fn lent_length(&self) -> usize
        ensures { result ≡ lent_long (read self.now) }
    {
        lent_length(
            self.x1.len(),
            self.x2.len(),
            self.x3.len(),
            self.index.len(),
            self.mark.len(),
            self.records.len(),
            self.v.len(),
        )
    }
}

// An add of water, by the number of its readings: 1, 7, that number, 10.
pub fn water_refusal(
    n: usize,
    at: Progress,
    constants: &[i32; MANY_CONSTANTS],
    reading: u8,
    records: &[RecordNumbers],
) -> u8
    requires { n ≤ length records.now }
    ensures { result ≡ water_refusal_for n (run_of at constants.now) reading records.now }
{
    let number = outline::number(run_refusal(n, at, constants, records));
    if number != 0 {
        return number;
    }
    if reading != 0 {
        return reading;
    }
    outline::number(room_refusal(n, at.months))
}

// An add of Z: 1, 7, 12, 10.
pub fn z_refusal(
    n: usize,
    at: Progress,
    constants: &[i32; MANY_CONSTANTS],
    z: i32,
    records: &[RecordNumbers],
) -> Result<(), Refusal>
    requires { n ≤ length records.now }
    ensures { answer_number result ≡ z_refusal_for n (run_of at constants.now) z records.now }
{
    run_refusal(n, at, constants, records)?;
    if !ranges::z_fits(z) {
        return Err(Refusal::BadZ);
    }
    room_refusal(n, at.months)
}

// A row, of lists that can be lent: 7, 11.
#[tactic(auto, unfolding(crate::specs::Lent::row_refusal_for))]
pub fn row_refusal(
    n: usize,
    at: Progress,
    constants: &[i32; MANY_CONSTANTS],
    i: usize,
    records: &[RecordNumbers],
) -> Result<(), Refusal>
    requires { n ≤ length records.now }
    ensures { answer_number result ≡ row_refusal_for n (run_of at constants.now) i records.now }
{
    if !is_run_for(n, at, constants, records) {
        return Err(Refusal::NotARun);
    }
    if i < at.months as usize {
        Ok(())
    } else {
        Err(Refusal::NoSuchRow)
    }
}

// 1 and 7, which every call on a run asks first. Compiled in place: as a function of its own it is handed the run in memory.
#[inline(always)]
#[tactic(auto, unfolding(crate::specs::Lent::run_refusal_for))]
pub fn run_refusal(
    n: usize,
    at: Progress,
    constants: &[i32; MANY_CONSTANTS],
    records: &[RecordNumbers],
) -> Result<(), Refusal>
    requires { n ≤ length records.now }
    ensures { answer_number result ≡ run_refusal_for n (run_of at constants.now) records.now }
{
    if n == 0 {
        return Err(Refusal::BadLists);
    }
    if !is_run_for(n, at, constants, records) {
        return Err(Refusal::NotARun);
    }
    Ok(())
}

// Whether it is a run, for lists of length n and with these records: 7.
fn is_run_for(
    n: usize,
    at: Progress,
    constants: &[i32; MANY_CONSTANTS],
    records: &[RecordNumbers],
) -> bool
    requires { n ≤ length records.now }
    ensures { result ≡ is_run_for n (run_of at constants.now) records.now }
{
    runs::is_run(n, at, constants) && records::ends_meet(at.months, at.soil, records)
}

// The length of lists of these lengths, and 0 where they cannot be lent: 0 is no lent list's length, and `run_refusal` gives it 1 as
// it gives a run its 7. An `Option` would be tested by each call, and by `run_refusal` again.
#[tactic(auto, unfolding(crate::specs::Lent::lent_length))]
pub fn lent_length(
    x1: usize,
    x2: usize,
    x3: usize,
    index: usize,
    mark: usize,
    records: usize,
    v: usize,
) -> usize
    ensures { result ≡ lent_length x1 x2 x3 index mark records v }
{
    if lengths_fit(x1, x2, x3, index, mark, records, v) {
        x1
    } else {
        0
    }
}

// Whether lists of these lengths can be lent: 1.
#[tactic(auto, unfolding(crate::specs::Book::lengths_fit))]
pub fn lengths_fit(
    x1: usize,
    x2: usize,
    x3: usize,
    index: usize,
    mark: usize,
    records: usize,
    v: usize,
) -> bool
    ensures { result ≡ lengths_fit x1 x2 x3 index mark records v }
{
    x2 == x1
        && x3 == x1
        && index == x1
        && mark == x1
        && records == x1
        && v == x1
        && ranges::length_fits(x1)
}

// The number of a month's two readings: precipitation's, or else PE's. They come as the numbers that `door::Told` has.
pub fn reading_refusal(p: u8, pe: u8) -> u8
    ensures { result ≡ reading_refusal p pe }
{
    if p != 0 { p } else { pe }
}

// 10, which every add asks last, of columns of length n.
#[tactic(auto, unfolding(crate::specs::Refusals::room_refusal))]
pub fn room_refusal(n: usize, months: u32) -> Result<(), Refusal>
    ensures { answer_number result ≡ room_refusal n months }
{
    if (months as usize) < n {
        return Ok(());
    }
    Err(Refusal::Full)
}
