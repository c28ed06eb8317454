// A line of a division file in the nClimDiv layout, read as a year of index, Z or modified index.
//
// Document 02, E14: "Extend E1's reader to these elements: reading back what was written gives the hundredths and the
// missing months." What a line says is specs/Line.antt. E14 left E1's reader, `layout::read`, as it was, and where a
// line is at fault is told by `layout::fault`, whatever its element.
#![tactic(auto)]

ghost use Rattle.std.specs.Prelude.{◌≡◌, ◌≤◌, length};
ghost use Rattle.outline.specs.Refused.{answer_number, refusal_number};
ghost use Rattle.fields.specs.Columns.{last_column};
ghost use Rattle.layout_figures.specs.Line.{refusal, figures_said};
ghost use Rattle.layout_figures.specs.Said.{figures_of};
ghost use Rattle.layout_figures.specs.Steps.{some_malformed, rest_fits, rain_refusal};

use fields::{LAST_COLUMN, MONTHS};
use figures::Element;
use layout_heading::{Heading, PRECIPITATION};
use outline::Refusal;

// What a line says of its year.
#[repr(C)]
#[derive(Clone, Copy, Debug, PartialEq, Eq)]
pub struct Figures {
    // 0, or the refusal, 14, 15 or 16; every other figure is 0 then.
    pub number: u8,
    // January first; 0 where the month is missing.
    pub hundredths: [i32; MONTHS],
    // The set of months present: January is bit 0, December bit 11.
    pub present: u32,
    // How many months are present.
    pub count: u32,
    // The first missing month, 1 to 12, or 0 where none is missing.
    pub first_missing: u32,
}

// Whether what follows the heading is as the layout has it, of a line of which a month is malformed or none is.
fn rest_fits(line: &[u8], malformed: bool) -> bool
    requires last_column_in_bounds { last_column ≤ length line.now }
    requires malformed_value { malformed ≡ some_malformed line.now }
    ensures { result ≡ rest_fits line.now }
{
    !malformed && fields::all_spaces(&line[LAST_COLUMN..])
}

// The refusal of a line of precipitation, whose values have a range: 14, or else it is another element.
fn rain_refusal(line: &[u8]) -> Refusal
    ensures { refusal_number result ≡ rain_refusal line.now }
{
    if layout::fault(line).is_some() {
        Refusal::Malformed
    } else {
        Refusal::OtherLine
    }
}

// Refuses, with 14, 15 or 16, a line that is long enough, of which a month is malformed or none is, and that is not as
// asked for.
fn check_line(
    line: &[u8],
    malformed: bool,
    element: Element,
    state: u32,
    division: u32,
    year: u32,
) -> Result<(), Refusal>
    requires last_column_in_bounds { last_column ≤ length line.now }
    requires malformed_value { malformed ≡ some_malformed line.now }
    ensures { answer_number result ≡ refusal line.now element state division year }
{
    let Ok(heading) = layout_heading::read_heading(line) else {
        return Err(Refusal::Malformed);
    };
    if heading.element == PRECIPITATION {
        return Err(rain_refusal(line));
    }
    if !rest_fits(line, malformed) {
        return Err(Refusal::Malformed);
    }
    heading.check(Heading {
        state,
        division,
        element: element.number(),
        year,
    })
}

// The figures of a line that is not refused.
fn read_line(
    line: &[u8],
    element: Element,
    state: u32,
    division: u32,
    year: u32,
) -> Result<Figures, Refusal>
    ensures { figures_of result ≡ figures_said line.now element state division year }
{
    if line.len() < LAST_COLUMN {
        return Err(Refusal::Malformed);
    }
    let mut hundredths = [0i32; MONTHS];
    let seen = figures::read_figures(line, &mut hundredths);
    check_line(line, seen.malformed, element, state, division, year)?;
    let present = seen.present;
    Ok(Figures {
        number: 0,
        hundredths,
        present,
        count: present.count_ones(),
        first_missing: layout_months::first_missing(present).unwrap_or(0),
    })
}

// Reads a line, for an element and a named state, division and expected year.
pub fn read(line: &[u8], element: Element, state: u32, division: u32, year: u32) -> Figures
    ensures { result ≡ figures_said line.now element state division year }
{
    match read_line(line, element, state, division, year) {
        Ok(figures) => figures,
        Err(refusal) => Figures {
            number: refusal.number(),
            hundredths: [0; MONTHS],
            present: 0,
            count: 0,
            first_missing: 0,
        },
    }
}
