// The run before one of its months, as the rows have it, and the months open again that were open then.
//
// For the crate `reworking`, which holds the rows in range: what has a `requires` is for it alone.
#![tactic(auto)]

ghost use Rattle.std.specs.Prelude.{◌≡◌, true, List, [], ℕ, ◌≤◌, ◌<◌, ℤ, pos, ◌≤ℤ◌, length};
ghost use Rattle.outline.specs.Numbers.{most_months};
ghost use Rattle.ranges.specs.Ranges.{calendar_fits};
ghost use Rattle.runs.specs.Progress.{run_of};
ghost use Rattle.records.specs.Record.{record_at};
ghost use Rattle.refusals.specs.Book.{book, values_at};
ghost use Rattle.reopening.specs.Before.{decided, opens_before, values_before, calendar_back, run_before, reopened};
ghost use Rattle.reopening.specs.Sided.{Sided};

use outline::LAST_MONTH;
use records::RecordNumbers;
use runs::Progress;
use spells::Running;
use water::Soil;

// Whether a month with these values decided.
fn decided(s: Running) -> bool
    ensures { result ≡ decided s }
{
    s.v == 0 && (s.x1 == 0 || s.x2 == 0)
}

// The running values after the month at place i.
fn values_at(i: usize, x1: &[i32], x2: &[i32], x3: &[i32], v: &[i64]) -> Running
    requires { (i < length x1.now) × (i < length x2.now) × (i < length x3.now) × (i < length v.now) }
    ensures { result ≡ values_at (book x1.now x2.now x3.now [] [] [] v.now) i }
{
    Running {
        x1: x1[i],
        x2: x2[i],
        x3: x3[i],
        v: v[i],
    }
}

// Opens the months again that were open before the month at place m, and says how many they are.
pub fn reopen(
    m: usize,
    x1: &[i32],
    x2: &[i32],
    x3: &[i32],
    index: &mut [i32],
    mark: &mut [u8],
    v: &[i64],
) -> usize
    requires m_in_bounds { (m ≤ length x1.now) × (m ≤ length x2.now) × (m ≤ length x3.now) × (m ≤ length index.old) × (m ≤ length mark.old) × (m ≤ length v.now) × (m ≤ most_months) }
    requires sided { Sided x1.now x2.now m }
    ensures value { (records : List (List ℤ)) → result ≡ opens_before (book x1.now x2.now x3.now index.old mark.old records v.now) m }
    ensures v_after { (records : List (List ℤ)) → book x1.now x2.now x3.now index.new mark.new records v.now ≡ reopened (book x1.now x2.now x3.now index.old mark.old records v.now) m }
{
    for i in (0..m).rev() {
        let s = values_at(i, x1, x2, x3, v);
        if decided(s) {
            return m - (i + 1);
        }
        let shown = spells::provisional_of(s);
        index[i] = shown;
        mark[i] = 1;
    }
    m
}

// The running values before the month at place m.
fn values_before(m: usize, x1: &[i32], x2: &[i32], x3: &[i32], v: &[i64]) -> Running
    requires { (m ≤ length x1.now) × (m ≤ length x2.now) × (m ≤ length x3.now) × (m ≤ length v.now) × (m ≤ most_months) }
    ensures { (index : List ℤ) (mark : List ℕ) (records : List (List ℤ)) → result ≡ values_before (book x1.now x2.now x3.now index mark records v.now) m }
{
    if m == 0 {
        return Running::default();
    }
    values_at(m - 1, x1, x2, x3, v)
}

// The calendar month so many months before this one.
pub fn calendar_back(calendar: u32, since: u32) -> u32
    requires { calendar_fits calendar ≡ true }
    ensures { result ≡ calendar_back calendar since }
{
    let back = since % LAST_MONTH;
    (calendar + (LAST_MONTH - 1) - back) % LAST_MONTH + 1
}

// Where the run stood before its month at place m, with so many open months then.
pub fn run_before(
    at: Progress,
    m: u32,
    opens: u32,
    x1: &[i32],
    x2: &[i32],
    x3: &[i32],
    records: &[RecordNumbers],
    v: &[i64],
) -> Progress
    requires m_lt_months { (m < at.months) × (at.months ≤ most_months) × (at.months ≤ length x1.now) × (at.months ≤ length x2.now) × (at.months ≤ length x3.now) × (at.months ≤ length records.now) × (at.months ≤ length v.now) }
    requires calendar_value { (calendar_fits at.calendar ≡ true) × (pos 0 ≤ℤ (record_at records.now m).ss) × (pos 0 ≤ℤ (record_at records.now m).su) }
    ensures { (index : List ℤ) (mark : List ℕ) (k : List ℤ) → opens ≡ opens_before (book x1.now x2.now x3.now index mark records.now v.now) m → run_of result k ≡ run_before (run_of at k) (book x1.now x2.now x3.now index mark records.now v.now) m }
{
    let soil = at.soil;
    let kept = records::record_at(records, m as usize);
    let calendar = calendar_back(at.calendar, at.months - m);
    let values = values_before(m as usize, x1, x2, x3, v);
    let start = Soil {
        capacity: soil.capacity,
        surface: kept.ss as u32,
        underlying: kept.su as u32,
    };
    Progress {
        months: m,
        opens,
        calendar,
        soil: start,
        values,
    }
}
