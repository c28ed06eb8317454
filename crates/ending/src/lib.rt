// Whether a spell in force has ended: U, V, E and Q of a month, and the chance of an ending in percent.
//
// For the crates `spells` and `modified`, which hold X3, V and Z in range. A wet spell is a drought with the signs turned,
// so a drought's rules are all that stands here.
#![tactic(auto)]

ghost use Rattle.std.specs.Prelude.{◌≡◌, ◌*◌, ◌≤◌, pos, nat_abs, ◌*ℤ◌};
ghost use Rattle.std.specs.Int.Signed.{le_z};
ghost use Rattle.outline.specs.Numbers.{most_x, most_z, weight_of_z};
ghost use Rattle.ending.specs.Ending.{turn, u_of, v_of, e_of, q_of, percent_of};
ghost use Rattle.ending.specs.Bounds.{most_v};

use outline::{E_OFFSET, U_OFFSET, WEIGHT_OF_X, WEIGHT_OF_Z};

// A wet spell's number with its sign turned, a drought's as it is.
// `wet` is a bool here and below, as in the definitions: there are two kinds of spell and no third.
pub fn turned(wet: bool, n: i64) -> i64
    requires { nat_abs n ≤ 2 * most_v }
    ensures { result ≡ turn wet n }
{
    if wet { -n } else { n }
}

pub fn u_of(wet: bool, z: i32) -> i64
    requires { nat_abs z ≤ most_z }
    ensures { result ≡ u_of (turn wet z) }
{
    turned(wet, z as i64) + U_OFFSET
}

// The new V, in the drought's sense.
fn v_of(wet: bool, v: i64, z: i32) -> i64
    requires { (nat_abs v ≤ most_v) × (nat_abs z ≤ most_z) }
    ensures { result ≡ v_of (turn wet v) (turn wet z) }
{
    u_of(wet, z) + turned(wet, v)
}

pub fn e_of(wet: bool, x3: i32) -> i64
    requires { nat_abs x3 ≤ most_x }
    ensures { result ≡ e_of (turn wet x3) }
{
    -(WEIGHT_OF_X * turned(wet, x3 as i64)) - E_OFFSET
}

fn q_of(wet: bool, x3: i32, v: i64) -> i64
    requires { (nat_abs x3 ≤ most_x) × (nat_abs v ≤ most_v) }
    ensures { result ≡ q_of (turn wet x3) (turn wet v) }
{
    e_of(wet, x3) + WEIGHT_OF_Z * turned(wet, v)
}

// 100,000 V / Q to the nearest, held within 1 to 99.
fn percent_of(v: i64, q: i64) -> u32
    requires { nat_abs v ≤ 2 * most_v }
    ensures { result ≡ percent_of v q }
{
    exact::nearest_signed(100_000 * v, q).clamp(1, 99) as u32
}

// V is at most 0. V and E decide, never the rounded percent.
pub fn is_steady(wet: bool, v: i64, z: i32) -> bool
    requires { (nat_abs v ≤ most_v) × (nat_abs z ≤ most_z) }
    ensures { result ≡ le_z (v_of (turn wet v) (turn wet z)) (pos 0) }
{
    v_of(wet, v, z) <= 0
}

// 1000 U is at least E, which ends a spell that is not steady.
pub fn has_ended(wet: bool, x3: i32, z: i32) -> bool
    requires { (nat_abs x3 ≤ most_x) × (nat_abs z ≤ most_z) }
    ensures { result ≡ le_z (e_of (turn wet x3)) (pos weight_of_z *ℤ u_of (turn wet z)) }
{
    WEIGHT_OF_Z * u_of(wet, z) >= e_of(wet, x3)
}

// The new V with the sign that the spell gives it.
pub fn kept_v(wet: bool, v: i64, z: i32) -> i64
    requires { (nat_abs v ≤ most_v) × (nat_abs z ≤ most_z) }
    ensures { result ≡ turn wet (v_of (turn wet v) (turn wet z)) }
{
    turned(wet, v_of(wet, v, z))
}

// The chance in percent that an abating spell has ended.
pub fn chance(wet: bool, x3: i32, v: i64, z: i32) -> u32
    requires { (nat_abs x3 ≤ most_x) × (nat_abs v ≤ most_v) × (nat_abs z ≤ most_z) }
    ensures { result ≡ percent_of (v_of (turn wet v) (turn wet z)) (q_of (turn wet x3) (turn wet v)) }
{
    percent_of(v_of(wet, v, z), q_of(wet, x3, v))
}
