// A wrong month repaired: its new readings take the place of those that stand there, it and all months after it are reworked from
// their records, and each month whose index or mark changed is reported.
//
// The call's promise: its answer, the run that it hands back and the whole content of every lent list, the report too, equal a
// definition of what was handed in (specs/Repair.antt), for every input, refused or not. It has no `requires`. Once nothing is refused
// nothing can be, so it never stops half way.
#![tactic(auto)]

ghost use Rattle.std.specs.Prelude.{◌≡◌, ◌≤◌};
ghost use Rattle.door.specs.Outcome.{measured};
ghost use Rattle.door.specs.Readings.{most_reading};
ghost use Rattle.runs.specs.Progress.{run_of};
ghost use Rattle.refusals.specs.Book.{book};
ghost use Rattle.repair.specs.Repair.{repair_result, repair_refusal, repair_outcomes, repair};
ghost use Rattle.repair.specs.Tried.{repaired_of};

use door::Reading;
use outline::{MANY_CONSTANTS, Refusal};
use records::{RecordNumbers, WATER};
use report::ChangeNumbers;
use runs::{Progress, Run};

// What a repair answers: 0 or its refusal, how many months are reported, and the run.
#[repr(C)]
#[derive(Drop)]
pub struct Repaired {
    pub number: u8,
    pub changed: u32,
    pub run: Run,
}

// What a repair answers, without the run's constants, done or refused. In a `Result` the progress would be copied where it is taken
// apart, and the run with its constants put together twice.
#[derive(Drop)]
struct Tried {
    number: u8,
    changed: u32,
    progress: Progress,
}

// Repairs the month at a row, from 0 on, with two readings: 1, 7, 11, 17, 8 or 9.
pub fn repair(
    run: Run,
    i: usize,
    p: Reading,
    pe: Reading,
    x1: &mut [i32],
    x2: &mut [i32],
    x3: &mut [i32],
    index: &mut [i32],
    mark: &mut [u8],
    records: &mut [RecordNumbers],
    v: &mut [i64],
    report: &mut [ChangeNumbers],
) -> Repaired
    ensures { repair_result result (book x1.new x2.new x3.new index.new mark.new records.new v.new) report.new ≡ repair run i p pe (book x1.old x2.old x3.old index.old mark.old records.old v.old) report.old }
{
    let a = door::tell(door::read(p));
    let b = door::tell(door::read(pe));
    let at = runs::progress_of(run);
    let constants = run.constants;
    let t = try_repair(
        at,
        &constants,
        i,
        refusals::reading_refusal(a.number, b.number),
        a.water,
        b.water,
        a.kind,
        x1,
        x2,
        x3,
        index,
        mark,
        records,
        v,
        report,
    );
    let next = runs::run_of(t.progress, constants);
    Repaired {
        number: t.number,
        changed: t.changed,
        run: next,
    }
}

// A repair by the number, the thousandths and the kind that its two readings come to, done or refused.
fn try_repair(
    at: Progress,
    constants: &[i32; MANY_CONSTANTS],
    i: usize,
    reading: u8,
    p: u32,
    pe: u32,
    kind: u8,
    x1: &mut [i32],
    x2: &mut [i32],
    x3: &mut [i32],
    index: &mut [i32],
    mark: &mut [u8],
    records: &mut [RecordNumbers],
    v: &mut [i64],
    report: &mut [ChangeNumbers],
) -> Tried
    requires { (p ≤ most_reading) × (pe ≤ most_reading) × (kind ≤ measured) }
    ensures { repair_result (repaired_of result constants.now) (book x1.new x2.new x3.new index.new mark.new records.new v.new) report.new ≡ repair_outcomes (run_of at constants.now) i (record { number = reading; water = p; kind = kind }) (record { number = 0; water = pe; kind = 0 }) (book x1.old x2.old x3.old index.old mark.old records.old v.old) report.old }
{
    let number = repair_refusal(
        at,
        constants,
        i,
        reading,
        x1,
        x2,
        x3,
        index,
        mark,
        records,
        v,
        report.len(),
    );
    if number != 0 {
        return not_repaired(number, at);
    }
    report::hold(index, mark, report);
    let s = reworking::rework(
        at, constants, i as u32, p, pe, kind, x1, x2, x3, index, mark, records, v,
    );
    let k = report::tell(index, mark, at.months as usize, report);
    Tried {
        number: 0,
        changed: k as u32,
        progress: s,
    }
}

// A repair that is refused: its number, and the run given.
fn not_repaired(number: u8, at: Progress) -> Tried
    ensures { result ≡ record { number = number; changed = 0; progress = at } }
{
    Tried {
        number,
        changed: 0,
        progress: at,
    }
}

// 1, 7, 11, 17, and the number of the two readings; of a report of n places.
fn repair_refusal(
    at: Progress,
    constants: &[i32; MANY_CONSTANTS],
    i: usize,
    reading: u8,
    x1: &[i32],
    x2: &[i32],
    x3: &[i32],
    index: &[i32],
    mark: &[u8],
    records: &[RecordNumbers],
    v: &[i64],
    n: usize,
) -> u8
    ensures { result ≡ repair_refusal (run_of at constants.now) i reading 0 (book x1.now x2.now x3.now index.now mark.now records.now v.now) n }
{
    let long = refusals::lent_length(
        x1.len(),
        x2.len(),
        x3.len(),
        index.len(),
        mark.len(),
        records.len(),
        v.len(),
    );
    if n != long {
        return Refusal::BadLists.number();
    }
    let number = outline::number(refusals::run_refusal(long, at, constants, records));
    if number != 0 {
        return number;
    }
    let soil = at.soil;
    if !kept_rows::rows_fit(
        soil.capacity,
        at.months,
        x1,
        x2,
        x3,
        index,
        mark,
        records,
        v,
    ) {
        return Refusal::NotARun.number();
    }
    if i >= at.months as usize {
        return Refusal::NoSuchRow.number();
    }
    let m = records::record_at(records, i);
    if m.water != WATER {
        return Refusal::Waterless.number();
    }
    reading
}
