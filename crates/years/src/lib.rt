// Which years of a run count: every January to December inside it, and whether each of their months had water.
//
// For the crate `constants`, which holds the calendar and the lists in range: what has a `requires` is for it alone.
#![tactic(auto)]

ghost use Rattle.std.specs.Prelude.{◌≡◌, true, ◌+◌, ◌≤◌, length};
ghost use Rattle.outline.specs.Numbers.{most_months};
ghost use Rattle.ranges.specs.Ranges.{calendar_fits};
ghost use Rattle.years.specs.Years.{first_january, years_from, all_water};

use outline::LAST_MONTH;
use records::{RecordNumbers, WATER};

// The row of the first January, where row 0 is this calendar month.
pub fn first_january(calendar: u32) -> u32
    requires { calendar_fits calendar ≡ true }
    ensures { result ≡ first_january calendar }
{
    (LAST_MONTH + 1 - calendar) % LAST_MONTH
}

// How many whole years there are from that row on, among so many months.
pub fn years_from(first: u32, months: u32) -> u32
    ensures { result ≡ years_from first months }
{
    if months < first {
        return 0;
    }
    (months - first) / LAST_MONTH
}

// Each of so many months, from a row on, had water. All are looked at, whatever the first ones are.
pub fn all_water(first: u32, many: u32, records: &[RecordNumbers]) -> bool
    requires { (first + many ≤ length records.now) × (first + many ≤ most_months) }
    ensures { result ≡ all_water records.now first many }
{
    let mut bad = false;
    for k in 0..many {
        let m = records::record_at(records, (first + k) as usize);
        bad |= m.water != WATER;
    }
    !bad
}
