// A group of open months before the month that decides, settled from its first month on.
//
// For the crates above, which hold what is required. Of an open month `mark` holds the side that it gives alone. That list
// is C's, of numbers, so there a side stands as one.
#![tactic(auto)]

ghost use Rattle.std.specs.Prelude.{◌≡◌, ◌++◌, ◌-◌, ◌≤◌, nat_abs, length, take, drop, replicate};
ghost use Rattle.outline.specs.Numbers.{most_x};
ghost use Rattle.hindsight.specs.Adding.{settled_all};
ghost use Rattle.hindsight.specs.Coded.{told};
ghost use Rattle.hindsight.specs.Rule.{nonzero};
ghost use Rattle.sides.specs.Sides.{EachFits, sides_of, codes, side_mark, marked_side, with_side};

use hindsight::Side;

// The side that a month gives alone, as `mark` holds it: 1 for X1's, 2 for X2's, and 0 for none.
pub fn told_mark(x1: i32, x2: i32) -> u8
    ensures { result ≡ side_mark (told (nonzero x1) (nonzero x2)) }
{
    if x1 == 0 {
        if x2 == 0 { 0 } else { 2 }
    } else {
        if x2 == 0 { 1 } else { 0 }
    }
}

// The side that a mark holds.
fn marked_side(mark: u8) -> Option<Side>
    ensures { result ≡ marked_side mark }
{
    match mark {
        0 => None,
        1 => Some(Side::First),
        _ => Some(Side::Second),
    }
}

// One mark at all the places from .. to. Not by `fill`: the compiler then walks the scan of `forward::look_forward` by the distance from
// its beginning, and each group of a series costs ten instructions more.
pub fn mark_all(mark: &mut [u8], from: usize, to: usize, m: u8)
    requires { (from ≤ to) × (to ≤ length mark.old) }
    ensures { mark.new ≡ take from mark.old ++ (replicate (to - from) m ++ drop to mark.old) }
{
    for i in from..to {
        mark[i] = m;
    }
}

// Settles the open months from .. at, which stand before a month that decides with X1 or X2, on whose side `by` is, and
// before which X1 and X2 were x1 and x2. Both are reckoned again from there. From each month a scan goes forward for the
// first that gives the side alone, and is left by its label; with none it is the deciding month's. The scan never goes
// back: of the months from the next one up to where it stands none gives a side, so for the next month it goes on from
// there, or from that month if it is later. It reads no mark that is overwritten already, and all is linear in the months.
pub fn settle_sides(
    z: &[i32],
    index: &mut [i32],
    mark: &mut [u8],
    from: usize,
    at: usize,
    by: Side,
    x1: i32,
    x2: i32,
)
    requires from_le_at { (from ≤ at) × (at ≤ length z.now) × (at ≤ length index.old) × (at ≤ length mark.old) }
    requires x1_bound { (nat_abs x1 ≤ most_x) × (nat_abs x2 ≤ most_x) × EachFits z.now }
    requires mark_value { take (at - from) (drop from mark.old) ≡ codes (sides_of x1 x2 (take (at - from) (drop from z.now))) }
    ensures indexes { index.new ≡ take from index.old ++ (settled_all (with_side by) (sides_of x1 x2 (take (at - from) (drop from z.now))) ++ drop at index.old) }
    ensures marks { mark.new ≡ take from mark.old ++ (replicate (at - from) 2 ++ drop at mark.old) }
{
    let mut a = x1;
    let mut b = x2;
    let mut sided = from;
    for i in from..at {
        a = spells::raised_next(a, z[i]);
        b = spells::lowered_next(b, z[i]);
        sided = sided.max(i);
        let mut side = by;
        'side: while sided < at {
            if let Some(told) = marked_side(mark[sided]) {
                side = told;
                break 'side;
            }
            sided += 1;
        }
        index[i] = match side {
            Side::First => a,
            Side::Second => b,
        };
        mark[i] = 2;
    }
}
