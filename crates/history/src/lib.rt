// The history that the lent columns hold: a month is added, and what it decides is settled.
//
// `add` is for the crates above, which hold the lengths that it requires.
#![tactic(auto)]

ghost use Rattle.std.specs.Prelude.{◌≡◌, ◌≤◌, ◌<◌, length, set};
ghost use Rattle.hindsight.specs.Months.{row_for, mark_for};
ghost use Rattle.hindsight.specs.Columns.{history_in};
ghost use Rattle.hindsight.specs.Coded.{Adds};

use spells::SpellMonth;

// What an add answers: how many months are open now, how many it settled, and the mark of the month that it added, which
// is 1 or 2 since C's list has it so.
#[derive(Clone, Copy)]
pub struct Added {
    pub opens: usize,
    pub settled: usize,
    pub mark: u8,
}

// Adds a month of spells: it writes the month's place in the five columns, and index and mark of the open months if it
// decides.
pub fn add(
    x1: &mut [i32],
    x2: &mut [i32],
    x3: &mut [i32],
    index: &mut [i32],
    mark: &mut [u8],
    months: usize,
    opens: usize,
    month: SpellMonth,
) -> Added
    requires { (opens ≤ months) × (months < length x1.old) × (length x2.old ≡ length x1.old) × (length x3.old ≡ length x1.old) × (length index.old ≡ length x1.old) × (length mark.old ≡ length x1.old) }
    ensures x1_after { x1.new ≡ set x1.old months month.after.x1 }
    ensures x2_after { x2.new ≡ set x2.old months month.after.x2 }
    ensures x3_after { x3.new ≡ set x3.old months month.after.x3 }
    ensures adds { Adds (history_in x1.old x2.old x3.old index.old mark.old months opens) (row_for month) months index.old index.new mark.old mark.new result.opens result.settled }
    ensures mark_value { result.mark ≡ mark_for month.decision }
{
    x1[months] = month.after.x1;
    x2[months] = month.after.x2;
    x3[months] = month.after.x3;
    index[months] = month.index;
    match month.decision {
        None => {
            mark[months] = 1;
            Added {
                opens: opens + 1,
                settled: 0,
                mark: 1,
            }
        }
        Some(with) => {
            mark[months] = 2;
            hindsight::settle(x1, x2, x3, index, mark, months - opens, months, with);
            Added {
                opens: 0,
                settled: opens + 1,
                mark: 2,
            }
        }
    }
}
