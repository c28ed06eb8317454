// Months reworked from what their records hold: the month at a place with its new readings, and all months after it.
//
// For the crate `repair`, which asks for every refusal first: what has a `requires` is for it alone.
#![tactic(auto)]

ghost use Rattle.std.specs.Prelude.{◌≡◌, ◌≤◌, ◌<◌, length, set};
ghost use Rattle.door.specs.Outcome.{measured};
ghost use Rattle.door.specs.Readings.{most_reading};
ghost use Rattle.runs.specs.Progress.{run_of};
ghost use Rattle.records.specs.Record.{numbers_of, record_at};
ghost use Rattle.refusals.specs.Book.{book};
ghost use Rattle.adding.specs.Taken.{result_of};
ghost use Rattle.adding.specs.Progress.{added_of};
ghost use Rattle.reworking.specs.Reworked.{left, again, renewed, reworked_from};
ghost use Rattle.reworking.specs.Workable.{Workable, Stands, Kept};

use adding::MonthAdded;
use door::MonthKinds;
use outline::MANY_CONSTANTS;
use records::{Record, RecordNumbers, WATER};
use refusals::Lists;
use runs::Progress;

// The month at place i with precipitation p, of this kind, and PE pe, and all months after it, each from its record.
pub fn rework(
    at: Progress,
    constants: &[i32; MANY_CONSTANTS],
    i: u32,
    p: u32,
    pe: u32,
    kind: u8,
    x1: &mut [i32],
    x2: &mut [i32],
    x3: &mut [i32],
    index: &mut [i32],
    mark: &mut [u8],
    records: &mut [RecordNumbers],
    v: &mut [i64],
) -> Progress
    requires workable { Workable (run_of at constants.now) (book x1.old x2.old x3.old index.old mark.old records.old v.old) i }
    requires p_le_most_reading { (p ≤ most_reading) × (pe ≤ most_reading) × (kind ≤ measured) }
    ensures { left (run_of result constants.now) (book x1.new x2.new x3.new index.new mark.new records.new v.new) ≡ reworked_from (run_of at constants.now) i p pe kind (book x1.old x2.old x3.old index.old mark.old records.old v.old) }
{
    let opens = reopening::reopen(i as usize, x1, x2, x3, index, mark, v);
    let mut s = reopening::run_before(at, i, opens as u32, x1, x2, x3, records, v);
    renew(i as usize, p, pe, kind, records);
    for _ in i..at.months {
        let t = add_again(s, constants, x1, x2, x3, index, mark, records, v);
        s = t.progress;
    }
    s
}

// New readings, put into the record at a place.
fn renew(i: usize, p: u32, pe: u32, kind: u8, records: &mut [RecordNumbers])
    requires i_in_bounds { i < length records.old }
    requires p_le_most_reading { (p ≤ most_reading) × (pe ≤ most_reading) × (kind ≤ measured) }
    ensures { records.new ≡ set records.old i (numbers_of (renewed (record_at records.old i) p pe kind)) }
{
    let m = records::record_at(records, i);
    let kept = Record {
        z: m.z,
        p: p as i32,
        pe: pe as i32,
        et: m.et,
        r: m.r,
        l: m.l,
        ro: m.ro,
        ss: m.ss,
        su: m.su,
        surface: m.surface,
        underlying: m.underlying,
        water: m.water,
        modified: m.modified,
        kind: kind as i32,
    };
    records::put(i, kept, records);
}

// The run's next month again, from the record that stands at its place.
fn add_again(
    at: Progress,
    constants: &[i32; MANY_CONSTANTS],
    x1: &mut [i32],
    x2: &mut [i32],
    x3: &mut [i32],
    index: &mut [i32],
    mark: &mut [u8],
    records: &mut [RecordNumbers],
    v: &mut [i64],
) -> MonthAdded
    requires stands { Stands (run_of at constants.now) (book x1.old x2.old x3.old index.old mark.old records.old v.old) }
    requires months_in_bounds { (at.months < length x1.old) × Kept (record_at records.old at.months) }
    ensures { result_of (added_of result constants.now) (book x1.new x2.new x3.new index.new mark.new records.new v.new) ≡ again (run_of at constants.now) (record_at records.old at.months) (book x1.old x2.old x3.old index.old mark.old records.old v.old) }
{
    let m = records::record_at(records, at.months as usize);
    let mut lists = Lists {
        x1,
        x2,
        x3,
        index,
        mark,
        records,
        v,
    };
    if m.water != WATER {
        return taking::add_z(at, m.z, &mut lists);
    }
    let kinds = MonthKinds {
        p: m.kind as u8,
        pe: 0,
    };
    taking::add_measured(at, constants, m.p as u32, m.pe as u32, kinds, &mut lists)
}
