// The second edition: the modified index of Heddinghaus and Sabol, of a month of spells that the crate `spells` has made.
//
// It is worked out once, when the month is added, and nothing that settles looks at it. For the crate `adding`, which holds
// the running values and Z in range. A wet spell is a drought with the signs turned.
#![tactic(auto)]

ghost use Rattle.std.specs.Prelude.{◌≡◌, ◌+◌, ◌*◌, ◌≤◌, pos, nat_abs, ◌+ℤ◌, ◌-ℤ◌, ◌*ℤ◌};
ghost use Rattle.exact.specs.Nearest.{nearest};
ghost use Rattle.outline.specs.Numbers.{most_x, most_z, weight_of_z};
ghost use Rattle.ending.specs.Ending.{turn};
ghost use Rattle.spells.specs.Spells.{step_of};
ghost use Rattle.spells.specs.ValuesFit.{ValuesFit};
ghost use Rattle.modified.specs.Modified.{mixed, modified_of};
ghost use Rattle.modified.specs.Leans.{lacking_of, Leans, Weighed};

use outline::WEIGHT_OF_Z;
use spells::{Running, SpellMonth};

// What a spell in force lacks of its ending: E - 1000 U, which is Q - 1000 V.
fn lacking(wet: bool, x3: i32, z: i32) -> i64
    requires { (nat_abs x3 ≤ most_x) × (nat_abs z ≤ most_z) }
    ensures { result ≡ lacking_of wet x3 z }
{
    ending::e_of(wet, x3) - WEIGHT_OF_Z * ending::u_of(wet, z)
}

// The nearest to (w high - d low) / (w + d), halves away from zero. It is high less d (high + low) / (w + d), whose product
// stays within 64 bits where w high may not.
fn between(high: u64, low: u64, w: u64, d: u64) -> i64
    requires { Weighed high low w d }
    ensures { result ≡ nearest (pos (w * high) -ℤ pos (d * low)) (w + d) }
{
    let q = w + d;
    let t = d * (high + low);
    let x = high as i64 - (t / q) as i64;
    let rest = t % q;
    let twice = rest + rest;
    if x > 0 {
        if twice > q { x - 1 } else { x }
    } else {
        if twice >= q { x - 1 } else { x }
    }
}

// The nearest to (1 - p) a + p b of an abating month: a is the X3 that it leaves, b the side that the index leans to, x3 what
// was before it. p is 1000 V / Q, and Q is 1000 V and what the spell lacks of its ending.
fn leaning(wet: bool, x3: i32, z: i32, v: i64, a: i32, b: i32) -> i32
    requires { Leans wet x3 z v a b }
    ensures { result ≡ mixed (turn wet v) (lacking_of wet x3 z +ℤ pos weight_of_z *ℤ turn wet v) a b }
{
    let high = ending::turned(wet, b as i64) as u64;
    let low = (0 - ending::turned(wet, a as i64)) as u64;
    let w = (WEIGHT_OF_Z * ending::turned(wet, v)) as u64;
    let d = lacking(wet, x3, z) as u64;
    ending::turned(wet, between(high, low, w, d)) as i32
}

// The modified index of the month with this Z, which after the running values s is `month`. V is kept while a spell
// abates, and is 0 elsewhere, where the modified index is the index.
pub fn modified(s: Running, z: i32, month: SpellMonth) -> i32
    requires values_fit { ValuesFit s }
    requires z_bound { nat_abs z ≤ most_z }
    requires m_value { (month.after ≡ (step_of s z).after) × (month.index ≡ (step_of s z).index) }
    ensures { result ≡ modified_of s z }
{
    let left = month.after;
    if left.v == 0 {
        return month.index;
    }
    if left.v < 0 {
        return leaning(true, s.x3, z, left.v, left.x3, left.x2);
    }
    leaning(false, s.x3, z, left.v, left.x3, left.x1)
}
