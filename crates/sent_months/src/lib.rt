// What each month of a run's year sends out: its index, its Z or its modified index in hundredths, or the missing mark.
//
// Document 02, E14: "whole calendar years, values nearest to hundredths .. An open Palmer month and a month outside the
// run get the mark." What a month sends is specs/Sent.antt. For the crate `sending`, which has asked for 1 and 7: what
// has a `requires` is for it alone.
#![tactic(auto)]

ghost use Rattle.std.specs.Prelude.{◌≡◌, true, ◌+◌, ◌*◌, ◌≤◌, ◌<◌, Some, length};
ghost use Rattle.outline.specs.Numbers.{last_month};
ghost use Rattle.fields.specs.Columns.{width};
ghost use Rattle.ranges.specs.Ranges.{calendar_fits};
ghost use Rattle.refusals.specs.Lists.{read};
ghost use Rattle.sent_months.specs.Sent.{nearest_hundredths, thousandths_at, is_sent, row_sent, month_sent};
ghost use Rattle.sent_months.specs.Signed.{sent_of, sent_text, sent_fits};

use fields::Number;
use figures::{Element, MARK};
use outline::LAST_MONTH;
use records::{MODIFIED, Z};
use refusals::Rows;

// A calendar year of a run, as it is sent.
#[derive(Clone, Copy)]
pub struct SentYear<'a> {
    pub element: Element,
    // The calendar month of row 0, from 1.
    pub calendar: u32,
    // The run's months.
    pub months: u32,
    // Which of the run's years, where year 0 is the one that row 0 lies in.
    pub which: u32,
    pub rows: Rows<'a>,
}

// The mark of a month that is settled.
const SETTLED: u8 = 2;

// ---- a value

// Thousandths as they are sent: the nearest hundredths, halves away from zero. 0 has no minus.
fn rounded(thousandths: i32) -> Number
    ensures { Some result ≡ sent_of (nearest_hundredths thousandths) }
{
    let hundredths = (thousandths.unsigned_abs() + 5) / 10;
    Number {
        minus: thousandths < 0 && hundredths != 0,
        hundredths,
    }
}

// Whether a month's value fits its seven characters, and is not the mark.
pub fn sent_fits(sent: Option<Number>) -> bool
    ensures { result ≡ sent_fits sent }
{
    match sent {
        Some(number) => number != MARK && number.fits(),
        None => true,
    }
}

// Writes what a month sends, or the mark, in its seven characters.
pub fn write_sent(field: &mut [u8], sent: Option<Number>)
    requires { length field.old ≡ width }
    ensures { field.new ≡ sent_text sent }
{
    // Each by itself: of `unwrap_or` the mark's digits would be reckoned for each month that is missing.
    match sent {
        Some(number) => number.write(field),
        None => MARK.write(field),
    }
}

// ---- a month

// Whether a row is sent, by its mark: "An open Palmer month" is not.
fn is_sent(element: Element, mark: u8) -> bool
    ensures { result ≡ is_sent element mark }
{
    match element {
        Element::Index => mark == SETTLED,
        Element::Z | Element::Modified => true,
    }
}

// The months from January of year 0 to month m, from 0, of the year `which`.
fn place_of(which: u32, m: u32) -> u64
    ensures { result ≡ last_month * which + m }
{
    u64::from(LAST_MONTH) * u64::from(which) + u64::from(m)
}

impl SentYear<'_> {
    // The thousandths of a row.
    fn thousandths(&self, i: usize) -> i32
        requires { (i < length self.now.rows.index.now) × (i < length self.now.rows.records.now) }
        ensures { result ≡ thousandths_at self.now.element self.now.rows.index.now self.now.rows.records.now i }
    {
        match self.element {
            Element::Index => self.rows.index[i],
            Element::Z => self.rows.records[i][Z],
            Element::Modified => self.rows.records[i][MODIFIED],
        }
    }

    // What a row sends.
    fn row(&self, i: usize) -> Option<Number>
        requires { (i < length self.now.rows.index.now) × (i < length self.now.rows.mark.now) × (i < length self.now.rows.records.now) }
        ensures { result ≡ sent_of (row_sent self.now.element (read self.now.rows) i) }
    {
        if !is_sent(self.element, self.rows.mark[i]) {
            return None;
        }
        Some(rounded(self.thousandths(i)))
    }

    // What the calendar month m, from 0, sends.
    pub fn month(&self, m: u32) -> Option<Number>
        requires calendar_value { calendar_fits self.now.calendar ≡ true }
        requires months_in_bounds { (self.now.months ≤ length self.now.rows.index.now) × (self.now.months ≤ length self.now.rows.mark.now) × (self.now.months ≤ length self.now.rows.records.now) }
        ensures { result ≡ sent_of (month_sent self.now.element (read self.now.rows) self.now.calendar self.now.months self.now.which m) }
    {
        let place = place_of(self.which, m);
        let before = u64::from(self.calendar - 1);
        if place < before {
            return None;
        }
        let row = place - before;
        if row >= u64::from(self.months) {
            return None;
        }
        self.row(row as usize)
    }
}
