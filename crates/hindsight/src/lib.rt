// Hindsight: the open months before a month that decides, settled.
//
// For the crates above, which hold the lengths that `settle` requires.
#![tactic(auto)]

ghost use Rattle.std.specs.Prelude.{◌≡◌, ◌++◌, ◌-◌, ◌≤◌, length, take, drop, replicate};
ghost use Rattle.hindsight.specs.Rule.{nonzero};
ghost use Rattle.hindsight.specs.Adding.{settled_all};
ghost use Rattle.hindsight.specs.Columns.{x_at, xs_from};
ghost use Rattle.std.specs.Option.{unwrap_or};
ghost use Rattle.hindsight.specs.Coded.{told, side_by, value_by};

use spells::With;

// The side of X1 or of X2.
#[derive(Clone, Copy, PartialEq, Eq)]
pub enum Side {
    First,
    Second,
}

// The side that a month gives alone: that of the one of its X1 and X2 that is not 0, if exactly one is, and else the one that is
// held. An option of a side would be put together and taken apart for each month.
pub fn told(x1: i32, x2: i32, held: Side) -> Side
    ensures { result ≡ unwrap_or (told (nonzero x1) (nonzero x2)) held }
{
    if x1 == 0 {
        if x2 == 0 { held } else { Side::Second }
    } else {
        if x2 == 0 { Side::First } else { held }
    }
}

// The side that a month gives that decides so; by X3 none is asked for.
pub fn side_by(by: With) -> Side
    ensures { result ≡ side_by by }
{
    match by {
        With::X1 => Side::First,
        With::X2 | With::X3 => Side::Second,
    }
}

// A month's X3, or its value on the side.
fn value(x1: i32, x2: i32, x3: i32, by: With, side: Side) -> i32
    ensures { result ≡ value_by by side (record { x1 = x1; x2 = x2; x3 = x3 }) }
{
    match by {
        With::X3 => x3,
        With::X1 | With::X2 => match side {
            Side::First => x1,
            Side::Second => x2,
        },
    }
}

// Settles the open months from .. at, which stand before a month that decides. It goes back from that month,
// and the side that it holds is the one that the first month from there on with exactly one of X1, X2 nonzero
// gives.
pub fn settle(
    x1: &[i32],
    x2: &[i32],
    x3: &[i32],
    index: &mut [i32],
    mark: &mut [u8],
    from: usize,
    at: usize,
    by: With,
)
    requires { (from ≤ at) × (at ≤ length x1.now) × (at ≤ length x2.now) × (at ≤ length x3.now) × (at ≤ length index.old) × (at ≤ length mark.old) }
    ensures indexes { index.new ≡ take from index.old ++ (settled_all by (xs_from (x_at x1.now x2.now x3.now) from (at - from)) ++ drop at index.old) }
    ensures marks { mark.new ≡ take from mark.old ++ (replicate (at - from) 2 ++ drop at mark.old) }
{
    let mut side = side_by(by);
    for i in (from..at).rev() {
        side = told(x1[i], x2[i], side);
        index[i] = value(x1[i], x2[i], x3[i], by, side);
        mark[i] = 2;
    }
}
