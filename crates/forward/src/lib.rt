// Hindsight over a whole series: index and mark of every month, by scans that look forward. No column is held besides
// those that are lent.
//
// `look_forward` is for the crates above, which hold what it requires.
#![tactic(auto)]

ghost use Rattle.std.specs.Prelude.{◌≡◌, ◌++◌, ◌-◌, ◌≤◌, nat_abs, length, take, drop, replicate};
ghost use Rattle.outline.specs.Numbers.{most_x, most_months};
ghost use Rattle.hindsight.specs.Rule.{forward_indexes, forward_marks};
ghost use Rattle.hindsight.specs.Months.{mark_for, rows_of_z};
ghost use Rattle.sides.specs.Sides.{EachFits, sides_of, codes};
ghost use Rattle.forward.specs.Groups.{group_indexes};

use spells::{Running, With};

// Settles the open months from .. at by the month at `at`, which decides with `by`: None where the series ends there and
// they stay open. Before them X1 and X2 were x1 and x2. By X3 the index of each stands already.
fn settle(
    z: &[i32],
    index: &mut [i32],
    mark: &mut [u8],
    from: usize,
    at: usize,
    by: Option<With>,
    x1: i32,
    x2: i32,
)
    requires from_le_at { (from ≤ at) × (at ≤ length z.now) × (at ≤ length index.old) × (at ≤ length mark.old) }
    requires x1_bound { (nat_abs x1 ≤ most_x) × (nat_abs x2 ≤ most_x) × EachFits z.now }
    requires mark_value { take (at - from) (drop from mark.old) ≡ codes (sides_of x1 x2 (take (at - from) (drop from z.now))) }
    ensures indexes { index.new ≡ take from index.old ++ (group_indexes by (take (at - from) (drop from index.old)) (sides_of x1 x2 (take (at - from) (drop from z.now))) ++ drop at index.old) }
    ensures marks { mark.new ≡ take from mark.old ++ (replicate (at - from) (mark_for by) ++ drop at mark.old) }
{
    match by {
        None => sides::mark_all(mark, from, at, 1),
        Some(With::X3) => sides::mark_all(mark, from, at, 2),
        Some(with) => sides::settle_sides(
            z,
            index,
            mark,
            from,
            at,
            hindsight::side_by(with),
            x1,
            x2,
        ),
    }
}

// The whole series: index and mark of every month. From the first month that is not settled a scan goes forward for
// the deciding month, and is left by its label: the outline asks for nested scans here, so it is no `for`. It writes the
// index that each month shows itself and, of an open month, the side that it gives alone. The group up to there is then
// settled, and the next one begins behind it: all is linear in the months.
pub fn look_forward(z: &[i32], index: &mut [i32], mark: &mut [u8])
    requires z_len_bound { (length z.now ≤ most_months) × (length index.old ≡ length z.now) × (length mark.old ≡ length z.now) }
    requires each_fits { EachFits z.now }
    ensures indexes { index.new ≡ forward_indexes (rows_of_z z.now) }
    ensures marks { mark.new ≡ forward_marks (rows_of_z z.now) }
{
    let mut values = Running::default();
    let mut from = 0;
    'months: while from < z.len() {
        let before = values;
        let mut by = None;
        let mut at = from;
        'deciding: while at < z.len() {
            let month = spells::step::<false>(values, z[at]);
            values = month.after;
            index[at] = month.index;
            by = month.decision;
            if by.is_some() {
                mark[at] = 2;
                break 'deciding;
            }
            mark[at] = sides::told_mark(values.x1, values.x2);
            at += 1;
        }
        settle(z, index, mark, from, at, by, before.x1, before.x2);
        from = at + 1;
    }
}
