// The twelve values of a line of the nClimDiv layout, read as months of precipitation.
//
// Document 02, E1: "twelve values of seven characters". What a value says of its month and what the months make is
// specs/Months.antt. Everything here is for the crate `layout`, which hands in lines that are long enough.
#![tactic(auto)]

ghost use Rattle.std.specs.Prelude.{◌≡◌, map, ◌+◌, ◌≤◌, ◌<◌, ◌^◌, length};
ghost use Rattle.fields.specs.Columns.{months_of_year, last_column};
ghost use Rattle.fields.specs.Told.{unless_zero};
ghost use Rattle.layout_months.specs.Months.{in_range, month_said, months_of, amount_of};
ghost use Rattle.layout_months.specs.Steps.{and_month, found_in, all_months, lowest_missing, column_of};

use fields::{FIRST_VALUE, HEADING, MONTHS, Number, WIDTH};

// What a value says as a month's precipitation.
#[derive(Clone, Copy, Debug, PartialEq, Eq)]
pub enum Month {
    // Thousandths of an inch.
    Amount(u32),
    // The missing mark.
    Missing,
    // A value that is neither the mark nor 0 to 100 inches.
    Outside,
    // No value.
    Malformed,
}

// Sets of the months read so far: January is bit 0, December bit 11.
#[derive(Clone, Copy, Debug, Default, PartialEq, Eq)]
pub struct Found {
    // Those whose value is malformed.
    pub malformed: u32,
    // Those whose value is malformed or outside its range.
    pub bad: u32,
    // Those that are present.
    pub present: u32,
}

// The missing mark, -9.99 inches, and the most that a month may have, 100 inches.
const MARK: Number = Number {
    minus: true,
    hundredths: 999,
};

const MOST: u32 = 10_000;

// The columns of a value.
const VALUE: u32 = WIDTH as u32;

// The set that holds all twelve months.
const ALL: u32 = 4_095;

// ---- a month

// Whether a number is 0 to 100 inches; a minus before 0 says 0.
#[tactic(auto, unfolding(crate::specs::Months::in_range))]
fn in_range(said: Number) -> bool
    ensures { result ≡ in_range said.minus said.hundredths }
{
    let most = if said.minus { 0 } else { MOST };
    said.hundredths <= most
}

// What a value says of its month.
#[tactic(auto, using(crate::proofs::Months::range_most), unfolding(crate::specs::Months::rain_of))]
fn month_said(said: Option<Number>) -> Month
    ensures { result ≡ month_said said }
{
    let Some(number) = said else {
        return Month::Malformed;
    };
    if number == MARK {
        Month::Missing
    } else if in_range(number) {
        Month::Amount(10 * number.hundredths)
    } else {
        Month::Outside
    }
}

// The thousandths that a value says, 0 where it says no amount. They are told by the value and not by its month: a
// month taken apart twice is compiled to a jump by a table.
#[tactic(auto, using(crate::proofs::Months::range_most))]
fn amount(said: Option<Number>) -> u32
    ensures { result ≡ amount_of (month_said said) }
{
    match said {
        Some(number) if in_range(number) => 10 * number.hundredths,
        _ => 0,
    }
}

// ---- the months of a line

impl Found {
    // The months so far and one more, whose bit of the sets this is.
    fn and(self, month: Month, bit: u32) -> Found
        requires bit_bound { self.malformed + bit < 2 ^ 32 }
        requires bit_bound_2 { self.bad + bit < 2 ^ 32 }
        requires bit_bound_3 { self.present + bit < 2 ^ 32 }
        ensures { result ≡ and_month self month bit }
    {
        match month {
            Month::Amount(_) => Found {
                present: self.present + bit,
                ..self
            },
            Month::Missing => self,
            Month::Outside => Found {
                bad: self.bad + bit,
                ..self
            },
            Month::Malformed => Found {
                malformed: self.malformed + bit,
                bad: self.bad + bit,
                ..self
            },
        }
    }
}

// Reads the twelve values of a line.
pub fn read_months(line: &[u8], amounts: &mut [u32]) -> Found
    requires last_column_in_bounds { last_column ≤ length line.now }
    requires amounts_len { length amounts.old ≡ months_of_year }
    ensures value { result ≡ found_in (months_of line.now) }
    ensures amounts_after { amounts.new ≡ map amount_of (months_of line.now) }
{
    let mut found = Found::default();
    for m in 0..MONTHS {
        let at = HEADING + WIDTH * m;
        let said = fields::read_field(&line[at..at + WIDTH]);
        amounts[m] = amount(said);
        found = found.and(month_said(said), 1 << m);
    }
    found
}

// The first month that is not in the set, if there is one: as many months as the set's complement within twelve bits
// has zeros below its lowest one are there before it.
#[tactic(auto, unfolding(crate::specs::Steps::lowest_missing))]
pub fn first_missing(present: u32) -> Option<u32>
    requires { present ≤ all_months }
    ensures { result ≡ unless_zero (lowest_missing present) }
{
    let missing = ALL - present;
    if missing == 0 {
        return None;
    }
    Some(missing.trailing_zeros() + 1)
}

// The column where the first month of a set begins, if it has one.
#[tactic(auto, unfolding(crate::specs::Steps::column_of))]
pub fn first_column(set: u32) -> Option<u32>
    ensures { result ≡ unless_zero (column_of set) }
{
    if set == 0 {
        return None;
    }
    Some(FIRST_VALUE + VALUE * set.trailing_zeros())
}
