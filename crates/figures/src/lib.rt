// The figures that are sent out, index, Z and modified index, and the twelve values of their lines, read as months.
//
// Document 02, E14: "The elements are 05, 07 and 08, and their missing mark is -99.99." What a value says of its month
// is specs/Figures.antt. Everything here is for the crates that read or write such a line: what has a `requires` is for
// them alone, which hand in lines that are long enough.
#![tactic(auto)]

ghost use Rattle.std.specs.Prelude.{◌≡◌, map, ◌+◌, ◌≤◌, ◌<◌, ◌^◌, length};
ghost use Rattle.fields.specs.Columns.{months_of_year, last_column};
ghost use Rattle.figures.specs.Figures.{number_of, signed_of, figure_said, hundredths_of, figures_of};
ghost use Rattle.figures.specs.Steps.{Small, seen_in, and_figure};

use fields::{HEADING, MONTHS, Number, WIDTH};

// What is sent out of a month, with its number in the columns.
#[derive(Clone, Copy, Debug, PartialEq, Eq)]
pub enum Element {
    Index = 5,
    Z = 7,
    Modified = 8,
}

// What a value says of its month.
#[derive(Clone, Copy, Debug, PartialEq, Eq)]
pub enum Figure {
    // Hundredths.
    Value(i32),
    // The missing mark.
    Missing,
    // No value.
    Malformed,
}

// The months read so far: whether one was malformed, and the set of those present, January bit 0, December bit 11.
#[derive(Clone, Copy, Debug, Default, PartialEq, Eq)]
pub struct Seen {
    pub malformed: bool,
    pub present: u32,
}

// The missing mark, -99.99.
pub const MARK: Number = Number {
    minus: true,
    hundredths: 9_999,
};

impl Element {
    // Its number.
    pub fn number(self) -> u32
        ensures { result ≡ number_of self }
    {
        self as u32
    }
}

// ---- a value

// Hundredths with their sign; a minus before 0 says 0.
fn signed(said: Number) -> i32
    requires { said.hundredths < 2 ^ 31 }
    ensures { result ≡ signed_of said.minus said.hundredths }
{
    let n = said.hundredths as i32;
    if said.minus { -n } else { n }
}

// What a value says of its month.
fn figure_said(said: Option<Number>) -> Figure
    requires { Small said }
    ensures { result ≡ figure_said said }
{
    let Some(number) = said else {
        return Figure::Malformed;
    };
    if number == MARK {
        Figure::Missing
    } else {
        Figure::Value(signed(number))
    }
}

// The hundredths of a month, 0 where it has none.
fn hundredths_of(figure: Figure) -> i32
    ensures { result ≡ hundredths_of figure }
{
    match figure {
        Figure::Value(hundredths) => hundredths,
        Figure::Missing | Figure::Malformed => 0,
    }
}

// ---- the months of a line

impl Seen {
    // The months so far and one more, whose bit of the set this is.
    fn and(self, figure: Figure, bit: u32) -> Seen
        requires { self.present + bit < 2 ^ 32 }
        ensures { result ≡ and_figure self figure bit }
    {
        match figure {
            Figure::Value(_) => Seen {
                present: self.present + bit,
                ..self
            },
            Figure::Missing => self,
            Figure::Malformed => Seen {
                malformed: true,
                ..self
            },
        }
    }
}

// Reads the twelve values of a line. Beside `layout_months::read_months`: a trait over both would have more members, a type
// that is kept, what is kept of a value, none found, one month more and the room for its bit, than each loop has lines.
pub fn read_figures(line: &[u8], hundredths: &mut [i32]) -> Seen
    requires last_column_in_bounds { last_column ≤ length line.now }
    requires hundredths_len { length hundredths.old ≡ months_of_year }
    ensures value { result ≡ seen_in (figures_of line.now) }
    ensures hundredths_after { hundredths.new ≡ map hundredths_of (figures_of line.now) }
{
    let mut seen = Seen::default();
    for m in 0..MONTHS {
        let at = HEADING + WIDTH * m;
        let figure = figure_said(fields::read_field(&line[at..at + WIDTH]));
        hundredths[m] = hundredths_of(figure);
        seen = seen.and(figure, 1 << m);
    }
    seen
}
