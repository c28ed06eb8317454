// The heading of a line in the nClimDiv layout: its first ten columns, read and written, and what is refused by them
// alone.
//
// Document 02, E1: "state, division, element and year in the first ten columns", and "15 other state, division or
// element, 16 not the expected year, in that order". What they are is specs/Heading.antt, and how they are written
// specs/Written.antt. Everything here is for the crates that read or write a line, which hand in lines that are long
// enough.
#![tactic(auto)]

ghost use Rattle.std.specs.Prelude.{◌≡◌, ◌≤◌, length};
ghost use Rattle.fields.specs.Columns.{heading_columns};
ghost use Rattle.outline.specs.Refused.{answer_number};
ghost use Rattle.layout_heading.specs.Steps.{heading_of, element_refusal};
ghost use Rattle.layout_heading.specs.Written.{heading_text};

use outline::Refusal;

// What the first ten columns say.
#[derive(Clone, Copy, Debug, PartialEq, Eq)]
pub struct Heading {
    pub state: u32,
    pub division: u32,
    pub element: u32,
    pub year: u32,
}

// "Precipitation is element 01".
pub const PRECIPITATION: u32 = 1;

// Reads the first ten columns. Where a part is no digits, the column where the first such part begins.
pub fn read_heading(line: &[u8]) -> Result<Heading, u32>
    requires { heading_columns ≤ length line.now }
    ensures { result ≡ heading_of line.now }
{
    let state = fields::number_of(&line[0..2]).ok_or(1u32)?;
    let division = fields::number_of(&line[2..4]).ok_or(3u32)?;
    let element = fields::number_of(&line[4..6]).ok_or(5u32)?;
    let year = fields::number_of(&line[6..10]).ok_or(7u32)?;
    Ok(Heading {
        state,
        division,
        element,
        year,
    })
}

impl Heading {
    // Refuses, with 15 or 16, a heading that is not the one that is asked for.
    pub fn check(self, asked: Heading) -> Result<(), Refusal>
        ensures { answer_number result ≡ element_refusal self.state self.division self.element self.year asked.state asked.division asked.element asked.year }
    {
        let of_the_year = Heading {
            year: asked.year,
            ..self
        };
        if of_the_year != asked {
            Err(Refusal::OtherLine)
        } else if self.year != asked.year {
            Err(Refusal::NotTheYear)
        } else {
            Ok(())
        }
    }

    // Writes the first ten columns, all of which are lent: the last digits of each number, with zeros in front.
    #[tactic(auto, unfolding(crate::specs::Written::heading_text))]
    pub fn write(self, heading: &mut [u8])
        requires { length heading.old ≡ heading_columns }
        ensures { heading.new ≡ heading_text self.state self.division self.element self.year }
    {
        heading.copy_from_slice(&[
            fields::last_digit(self.state / 10),
            fields::last_digit(self.state),
            fields::last_digit(self.division / 10),
            fields::last_digit(self.division),
            fields::last_digit(self.element / 10),
            fields::last_digit(self.element),
            fields::last_digit(self.year / 1_000),
            fields::last_digit(self.year / 100),
            fields::last_digit(self.year / 10),
            fields::last_digit(self.year),
        ]);
    }
}
