// What the program `division` holds while it reads a division file, and what it makes of each line: a row for each year
// of one state and division, or why the reading stopped.
//
// Document 02, E1: "We take on stations with a century of rain already published in the nClimDiv fixed-width layout".
// What is made of whole lines is specs/ByLines.antt. Everything here is for the crate `division_input`, whose program
// lends room for the rows.
#![tactic(auto)]

ghost use Rattle.std.specs.Prelude.{◌≡◌};
ghost use Rattle.fields.specs.Told.{unless_zero, or_zero};
ghost use Rattle.division_session.specs.ByLines.{counted};

use kept_line::Kept;
use layout::Year;
use outline::Refusal;

// Room for the rows of the years 0 to 9999.
pub const ROOM: usize = 1_540_000;

#[derive(Drop)]
pub struct Session {
    // What is asked for.
    pub state: u32,
    pub division: u32,
    // What is kept of the line so far.
    pub kept: Kept,
    // How many lines have been closed.
    pub lines: u32,
    // The refusal that stopped the reading, with 14, 15 or 16.
    pub refused: Option<Refusal>,
    // The year that must follow, where a line has been taken. It is above 0.
    pub next: Option<u32>,
    // Where the rows so far end.
    pub end: usize,
    pub ghost above_zero: { next ≡ unless_zero (or_zero next) },
}

fn count_line(lines: u32) -> u32
    ensures { result ≡ counted lines }
{
    lines.saturating_add(1)
}

impl Session {
    ghost use Rattle.std.specs.Prelude.{◌≡◌, ◌+◌, ◌≤◌, ◌<◌, length, take};
    ghost use Rattle.outline.specs.Refused.{refusal_number};
    ghost use Rattle.fields.specs.Told.{or_zero};
    ghost use Rattle.layout.specs.Said.{answer_of};
    ghost use Rattle.kept_line.specs.Kept.{most_kept};
    ghost use Rattle.rows.specs.Room.{laid, most_year};
    ghost use Rattle.division_session.specs.ByLines.{expected};
    ghost use Rattle.division_session.specs.Session.{seen, begun, most_years, Held, closed, row_text, with_row, passed, stopped, line_closed, last_closed, none_found};

    // Before the first byte.
    pub fn begin(state: u32, division: u32) -> Self
        ensures { seen result ≡ begun state division }
    {
        Session {
            state,
            division,
            kept: Kept::new(),
            lines: 0,
            refused: None,
            next: None,
            end: 0,
        }
    }

    // ---- a line closed

    // The year that the line must have: the one that follows, or its own where it is the first. A first line with no year
    // is refused whatever the year is.
    fn expected_year(&self) -> u32
        requires { self.now.kept.count ≤ most_kept }
        ensures { result ≡ expected (or_zero self.now.next) (take self.now.kept.count self.now.kept.line) }
    {
        match self.next {
            Some(year) => year,
            None => layout::year_of(self.kept.bytes()).unwrap_or(0),
        }
    }

    fn pass_over(&mut self)
        ensures told { seen self.new ≡ passed (seen self.old) }
        ensures line { self.new.kept.line ≡ self.old.kept.line }
    {
        self.lines = count_line(self.lines);
        self.kept.clear();
    }

    fn stop(&mut self, refusal: Refusal)
        ensures told { seen self.new ≡ stopped (seen self.old) (refusal_number refusal) }
        ensures line { self.new.kept.line ≡ self.old.kept.line }
    {
        self.lines = count_line(self.lines);
        self.refused = Some(refusal);
    }

    fn add_row(&mut self, year: &Year, y: u32, out: &mut [u8])
        requires y_lt_most_years { y < most_years }
        requires most_year_in_bounds { self.old.end + most_year ≤ length out.old }
        ensures told { seen self.new ≡ with_row (seen self.old) (answer_of (Ok year.now)) y }
        ensures line { self.new.kept.line ≡ self.old.kept.line }
        ensures out_after { out.new ≡ laid (row_text (answer_of (Ok year.now)) y) self.old.end out.old }
    {
        self.end = rows::lay_year(y, &year.amounts, year.present, year.count, self.end, out);
        self.lines = count_line(self.lines);
        self.refused = None;
        self.next = Some(y + 1);
        self.kept.clear();
    }

    // The line is taken, passed over, or stops the reading.
    pub fn close_line(&mut self, out: &mut [u8])
        requires { Held (seen self.old) self.old.kept.line out.old }
        ensures out_after { closed (seen self.new) out.new ≡ line_closed (seen self.old) (take self.old.kept.count self.old.kept.line) out.old }
        ensures line { self.new.kept.line ≡ self.old.kept.line }
    {
        let y = self.expected_year();
        match layout::read(self.kept.bytes(), self.state, self.division, y) {
            Ok(year) => self.add_row(&year, y, out),
            Err(refusal) => match refusal {
                Refusal::OtherLine => self.pass_over(),
                _ => self.stop(refusal),
            },
        }
    }

    // ---- the end of the input

    // A last line that no line feed closes.
    pub fn close_last(&mut self, out: &mut [u8])
        requires { Held (seen self.old) self.old.kept.line out.old }
        ensures out_after { closed (seen self.new) out.new ≡ last_closed (seen self.old) self.old.kept.line out.old }
        ensures line { self.new.kept.line ≡ self.old.kept.line }
    {
        if self.refused.is_none() && self.kept.count != 0 {
            self.close_line(out);
        }
    }

    // 15 where no line was taken.
    pub fn none_found(&mut self)
        ensures told { seen self.new ≡ none_found (seen self.old) }
        ensures line { self.new.kept.line ≡ self.old.kept.line }
    {
        if self.refused.is_none() && self.next.is_none() {
            self.refused = Some(Refusal::OtherLine);
        }
    }
}
