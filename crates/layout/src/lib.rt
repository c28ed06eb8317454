// A line of a division file in the nClimDiv layout, read as a year's precipitation.
//
// Document 02, E1: "Read precipitation lines one a call, without the line feed, for a named state, division and
// expected year; spaces after the last value are ignored." What a line says is specs/Rainfall.antt, and where it is at
// fault specs/Fault.antt; its heading, its values and their months are read by the crates below.
#![tactic(auto)]

ghost use Rattle.std.specs.Prelude.{◌≡◌, ◌≤◌, length, IfOk};
ghost use Rattle.outline.specs.Refused.{answer_number};
ghost use Rattle.text.specs.Bytes.{natural};
ghost use Rattle.fields.specs.Columns.{last_column};
ghost use Rattle.fields.specs.Columns.{element as element_columns};
ghost use Rattle.fields.specs.Told.{unless_zero, or_zero};
ghost use Rattle.layout_months.specs.Months.{months_of};
ghost use Rattle.layout_months.specs.Steps.{found_in};
ghost use Rattle.layout_heading.specs.Heading.{precipitation};
ghost use Rattle.layout.specs.Rainfall.{refusal, year_said, year_of, year_told};
ghost use Rattle.layout.specs.Said.{answer_of};
ghost use Rattle.layout.specs.Fault.{fault_of};
ghost use Rattle.layout.specs.Steps.{found_fault, rest_fault};

use fields::{HEADING, LAST_COLUMN, MONTHS};
use layout_heading::{Heading, PRECIPITATION};
use layout_months::Found;
use outline::Refusal;

// What a line says of its year.
#[derive(Clone, Copy, Debug, PartialEq, Eq)]
pub struct Year {
    // Thousandths of an inch, January first; 0 where the month is missing.
    pub amounts: [u32; MONTHS],
    // The set of months present: January is bit 0, December bit 11.
    pub present: u32,
    // How many months are present.
    pub count: u32,
    // The first missing month, 1 to 12, if one is missing.
    pub first_missing: Option<u32>,
}

// ---- where a line is at fault

// The column where the first month at fault begins, if there is one: only the values of a precipitation line have a
// range.
#[tactic(auto, unfolding(crate::specs::Steps::found_fault))]
fn months_fault(found: Found, element: u32) -> Option<u32>
    ensures { result ≡ unless_zero (found_fault found element) }
{
    if element == PRECIPITATION {
        layout_months::first_column(found.bad)
    } else {
        layout_months::first_column(found.malformed)
    }
}

// The column where what follows the heading is first at fault, if it is, of a line of an element whose months are found.
fn rest_fault(line: &[u8], found: Found, element: u32) -> Option<u32>
    requires last_column_in_bounds { last_column ≤ length line.now }
    requires found_value { found ≡ found_in (months_of line.now) }
    requires element_value { element ≡ natural (element_columns line.now) }
    ensures { result ≡ unless_zero (rest_fault line.now) }
{
    if let Some(column) = months_fault(found, element) {
        return Some(column);
    }
    if fields::all_spaces(&line[LAST_COLUMN..]) {
        return None;
    }
    Some(LAST_COLUMN as u32 + 1)
}

// ---- the refusals

// Refuses, with 14, 15 or 16, a line that is long enough, whose months are found, and that is not as asked for.
fn check_line(line: &[u8], found: Found, asked: Heading) -> Result<(), Refusal>
    requires last_column_in_bounds { last_column ≤ length line.now }
    requires found_value { found ≡ found_in (months_of line.now) }
    requires element_value { asked.element ≡ precipitation }
    ensures { answer_number result ≡ refusal line.now asked.state asked.division asked.year }
{
    let Ok(heading) = layout_heading::read_heading(line) else {
        return Err(Refusal::Malformed);
    };
    if rest_fault(line, found, heading.element).is_some() {
        return Err(Refusal::Malformed);
    }
    heading.check(asked)
}

// ---- the answers

// Reads a line, for a named state, division and expected year.
pub fn read(line: &[u8], state: u32, division: u32, year: u32) -> Result<Year, Refusal>
    ensures value { answer_of result ≡ year_said line.now state division year }
    ensures missing { IfOk result (λ said. said.first_missing ≡ unless_zero (year_said line.now state division year).first_missing) }
{
    if line.len() < LAST_COLUMN {
        return Err(Refusal::Malformed);
    }
    let asked = Heading {
        state,
        division,
        element: PRECIPITATION,
        year,
    };
    let mut amounts = [0u32; MONTHS];
    let found = layout_months::read_months(line, &mut amounts);
    check_line(line, found, asked)?;
    let present = found.present;
    Ok(Year {
        amounts,
        present,
        count: present.count_ones(),
        first_missing: layout_months::first_missing(present),
    })
}

// The year that a line's columns say, if they are four digits: for the first line of a file, whose year is not known
// before.
pub fn year_of(line: &[u8]) -> Option<u32>
    ensures value { or_zero result ≡ year_of line.now }
    ensures told { result ≡ year_told line.now }
{
    if line.len() < HEADING {
        return None;
    }
    fields::number_of(&line[6..10])
}

// The column where the first field at fault of a line begins, counted from 1, if it has one: for a person who is told
// that a line is refused with 14.
pub fn fault(line: &[u8]) -> Option<u32>
    ensures { result ≡ unless_zero (fault_of line.now) }
{
    if line.len() < LAST_COLUMN {
        return Some(line.len() as u32 + 1);
    }
    match layout_heading::read_heading(line) {
        Err(column) => Some(column),
        Ok(heading) => {
            let mut amounts = [0u32; MONTHS];
            let found = layout_months::read_months(line, &mut amounts);
            rest_fault(line, found, heading.element)
        }
    }
}
