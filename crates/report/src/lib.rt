// The report of a repair: each month whose index or mark changed, oldest first, with both values.
//
// While months are reworked the report holds what their index and mark were before, so that nothing else has to. For the crate
// `repair`, which has asked for 1: what has a `requires` is for it alone.
#![tactic(auto)]

ghost use Rattle.std.specs.Prelude.{◌≡◌, ◌++◌, ◌-◌, ◌≤◌, length, take, replicate};
ghost use Rattle.outline.specs.Numbers.{most_months};
ghost use Rattle.report.specs.Report.{no_change, reported};
ghost use Rattle.report.specs.Held.{held, changes_since};

// How many numbers a place of the report has.
pub const CHANGE_NUMBERS: usize = 5;

// A month that changed, as it stands at its place: its row, its index before and after, its mark before and after.
pub type ChangeNumbers = [i32; CHANGE_NUMBERS];

// A place of the report where there is none.
const NO_CHANGE: ChangeNumbers = [0; CHANGE_NUMBERS];

// Holds index and mark of each month, at its place.
// By `enumerate` and not `zip`: of what a `zip` lends for writing a proof knows nothing.
pub fn hold(index: &[i32], mark: &[u8], report: &mut [ChangeNumbers])
    requires { (length index.now ≡ length report.old) × (length mark.now ≡ length report.old) × (length report.old ≤ most_months) }
    ensures { report.new ≡ held index.now mark.now (length report.old) }
{
    for (i, place) in report.iter_mut().enumerate() {
        *place = [0, index[i], 0, i32::from(mark[i]), 0];
    }
}

// Puts the changes among the first months where the report held what was before, clears all after them, and says how many there are.
pub fn tell(index: &[i32], mark: &[u8], months: usize, report: &mut [ChangeNumbers]) -> usize
    requires { (length index.now ≡ length report.old) × (length mark.now ≡ length report.old) × (length report.old ≤ most_months) × (months ≤ length report.old) }
    ensures value { result ≡ length (changes_since report.old index.now mark.now months) }
    ensures report_after { report.new ≡ reported (length report.old) (changes_since report.old index.now mark.now months) }
{
    let k = gather(index, mark, months, report);
    report[months..].fill(NO_CHANGE);
    k
}

// The changes among the first months, at the beginning of the report, nothing after them up to months, and how many there are. Each
// place is cleared as it is read, and a change goes to no later place than that which held its month, so what is still to be read
// stands.
fn gather(index: &[i32], mark: &[u8], months: usize, report: &mut [ChangeNumbers]) -> usize
    requires { (length index.now ≡ length report.old) × (length mark.now ≡ length report.old) × (length report.old ≤ most_months) × (months ≤ length report.old) }
    ensures value { result ≡ length (changes_since report.old index.now mark.now months) }
    ensures report_after { take months report.new ≡ changes_since report.old index.now mark.now months ++ replicate (months - result) no_change }
    ensures upper_bound { result ≤ months }
{
    let mut k: usize = 0;
    for i in 0..months {
        let [_, old, _, old_mark, _] = report[i];
        report[i] = NO_CHANGE;
        let new = index[i];
        let new_mark = i32::from(mark[i]);
        if (old, old_mark) != (new, new_mark) {
            report[k] = [i as i32, old, new, old_mark, new_mark];
            k += 1;
        }
    }
    k
}
