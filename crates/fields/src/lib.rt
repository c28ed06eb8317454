// The fields of a line in the nClimDiv layout, each by itself, in both directions: digits, values of seven characters,
// and spaces.
//
// Document 02, E1: "state, division, element and year in the first ten columns, then twelve values of seven
// characters". What stands in which column is specs/Columns.antt, what a value is specs/Field.antt, and how it is written
// specs/Written.antt. Everything here is for the crates that read or write a line, which hand in parts of the length that
// is asked for.
#![tactic(auto)]

ghost use Rattle.std.specs.Prelude.{◌≡◌, ◌≤◌, length};
ghost use Rattle.text.specs.Bytes.{all_spaces, negative, body};
ghost use Rattle.fields.specs.Columns.{width};
ghost use Rattle.fields.specs.Field.{digits_of, unpadded, plain, field_of};
ghost use Rattle.fields.specs.Written.{last_digit, before_units, field_text, size_fits};

use outline::LAST_MONTH;

// The number that a value is: whether there is a minus, and the hundredths.
#[derive(Clone, Copy, Debug, PartialEq, Eq)]
pub struct Number {
    pub minus: bool,
    pub hundredths: u32,
}

// The layout: the columns before the first value, where that begins, counted from 1, the values, the columns of a value,
// and the last column of the last.
pub const HEADING: usize = 10;

pub const FIRST_VALUE: u32 = HEADING as u32 + 1;

pub const MONTHS: usize = LAST_MONTH as usize;

pub const WIDTH: usize = 7;

pub const LAST_COLUMN: usize = 94;

// The most hundredths that seven characters hold: without a minus, and with one.
const MOST_ABOVE: u32 = 999_999;

const MOST_BELOW: u32 = 99_999;

// ---- digits and spaces

// The number that a part makes, if it is digits, of which at most four bytes are handed in.
pub fn number_of(part: &[u8]) -> Option<u32>
    requires { length part.now ≤ 4 }
    ensures { result ≡ digits_of part.now }
{
    let mut n = 0;
    for b in part {
        if !text::is_digit(*b) {
            return None;
        }
        n = 10 * n + u32::from(*b - b'0');
    }
    Some(n)
}

// Whether a part is spaces alone.
pub fn all_spaces(rest: &[u8]) -> bool
    ensures { result ≡ all_spaces rest.now }
{
    rest.iter().all(|b| *b == b' ')
}

// ---- a value

// The part that follows the spaces in front. A `for` over the part, whose end is a way out of its own, costs 160 instructions a
// line more than this loop, and hand-written Rust is then ahead.
fn without_padding(part: &[u8]) -> &[u8]
    ensures { result.now ≡ unpadded part.now }
{
    let mut i = 0;
    while i < part.len() {
        if part[i] != b' ' {
            return &part[i..];
        }
        i += 1;
    }
    &part[i..]
}

#[tactic(auto, unfolding(text::specs::Bytes::negative))]
fn has_minus(part: &[u8]) -> bool
    ensures { result ≡ negative part.now }
{
    matches!(part, [b'-', ..])
}

#[tactic(auto, unfolding(text::specs::Bytes::body))]
fn without_minus(part: &[u8]) -> &[u8]
    ensures { result.now ≡ body part.now }
{
    match part {
        [b'-', units @ ..] => units,
        units => units,
    }
}

// Whether no 0 stands in front of other digits.
#[tactic(auto, unfolding(crate::specs::Field::plain))]
fn is_plain(part: &[u8]) -> bool
    ensures { result ≡ plain part.now }
{
    !matches!(part, [b'0', _, ..])
}

// The number that a value is, if it is one, of which all seven characters are handed in.
pub fn read_field(field: &[u8]) -> Option<Number>
    requires { length field.now ≡ width }
    ensures { result ≡ field_of field.now }
{
    if field[4] != b'.' {
        return None;
    }
    let ahead = without_padding(&field[..4]);
    let units = without_minus(ahead);
    if !is_plain(units) {
        return None;
    }
    let whole = number_of(units)?;
    let part = number_of(&field[5..7])?;
    Some(Number {
        minus: has_minus(ahead),
        hundredths: 100 * whole + part,
    })
}

// ---- a value written

// The last digit of a number, as its byte.
pub fn last_digit(n: u32) -> u8
    ensures { result ≡ last_digit n }
{
    b'0' + (n % 10) as u8
}

impl Number {
    // Writes it as a value, of which all seven characters are lent.
    #[tactic(auto, unfolding(crate::specs::Written::field_text))]
    pub fn write(self, field: &mut [u8])
        requires { length field.old ≡ width }
        ensures { field.new ≡ field_text self.minus self.hundredths }
    {
        let n = self.hundredths;
        field.copy_from_slice(&[
            self.before_units(n / 100_000, n / 10_000),
            self.before_units(n / 10_000, n / 1_000),
            self.before_units(n / 1_000, 1),
            last_digit(n / 100),
            b'.',
            last_digit(n / 10),
            last_digit(n),
        ]);
    }

    // A column before the units, of the number without the columns to its right, and without those but one.
    #[tactic(auto, unfolding(crate::specs::Written::before_units))]
    fn before_units(self, q: u32, next: u32) -> u8
        ensures { result ≡ before_units self.minus q next }
    {
        if q != 0 {
            last_digit(q)
        } else if next == 0 {
            b' '
        } else if self.minus {
            b'-'
        } else {
            b' '
        }
    }

    // Whether seven characters hold it.
    pub fn fits(self) -> bool
        ensures { result ≡ size_fits self.minus self.hundredths }
    {
        let most = if self.minus { MOST_BELOW } else { MOST_ABOVE };
        self.hundredths <= most
    }
}
