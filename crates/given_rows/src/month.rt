// The rows of a calendar month over the years.

ghost use Rattle.std.specs.Prelude.{◌≡◌, ◌+◌, ◌*◌, ◌<◌};
ghost use Rattle.outline.specs.Numbers.{last_month};
ghost use Rattle.records.specs.Record.{record_at};
ghost use Rattle.given_rows.specs.GivenRows.{water_of};
ghost use Rattle.given_rows.specs.Facts.{Watered};

use crate::{WaterRow, water_at};
use outline::LAST_MONTH;
use records::RecordNumbers;

// A calendar month over so many years of a soil of this capacity, whose first row stands at a place: each of its rows is one that an
// add gives.
#[derive(Clone, Copy)]
pub struct CalendarMonth<'a> {
    pub capacity: u32,
    pub at: usize,
    pub years: u32,
    pub records: &'a [RecordNumbers],
    pub ghost watered: { Watered capacity records.now at years },
}

impl CalendarMonth<'_> {
    // The row of a year, the first of which is 0.
    pub fn row(&self, year: u32) -> WaterRow
        requires { year < self.now.years }
        ensures { result ≡ water_of self.now.capacity (record_at self.now.records.now (self.now.at + last_month * year)) }
    {
        let row = self.at + (LAST_MONTH * year) as usize;
        water_at(self.capacity, row, self.records)
    }
}
