// One month of spells: X1, X2, X3, V, the chance of an ending, and what the month decides with.
//
// `step`, `raised_next` and `lowered_next` are for the crates above, which hold the running values and Z in range before
// they call. Whether a spell in force has ended is the crate `ending`'s.
#![tactic(auto)]

ghost use Rattle.std.specs.Prelude.{◌≡◌, ◌≤◌, pos, nat_abs, neg_ℤ, Some};
ghost use Rattle.std.specs.Int.Signed.{lt_z};
ghost use Rattle.exact.specs.Next.{next_of};
ghost use Rattle.outline.specs.Numbers.{most_x, most_z, in_force_beyond};
ghost use Rattle.spells.specs.Chance.{chance_shown};
ghost use Rattle.spells.specs.ValuesFit.{SidesFit, ValuesFit};
ghost use Rattle.spells.specs.Spells.{raised, lowered, larger_in_size, provisional, steady_month, abating_month, founded, unfounded, tried, no_spell, step_of};

use outline::{FOUNDS, IN_FORCE};

// The running values, as the month before left them: all 0 in a fresh run.
#[repr(C)]
#[derive(Clone, Copy, Default)]
pub struct Running {
    pub x1: i32,
    pub x2: i32,
    pub x3: i32,
    pub v: i64,
}

// With which of the three a month decides.
#[derive(Clone, Copy, PartialEq, Eq)]
pub enum With {
    X1,
    X2,
    X3,
}

// A month of spells: the running values after it, the chance in percent that the spell has ended, what it
// decides with if it does, and its index, provisional where nothing is decided.
#[derive(Clone, Copy)]
pub struct SpellMonth {
    pub after: Running,
    pub percent: u32,
    pub decision: Option<With>,
    pub index: i32,
}

// The larger of 0 and next(x). By its sign: `max` costs a month of a whole series some instructions more. For the crates above, which hold x and Z in range.
pub fn raised_next(x: i32, z: i32) -> i32
    requires x_bound { nat_abs x ≤ most_x }
    requires z_bound { nat_abs z ≤ most_z }
    ensures { result ≡ raised (next_of x z) }
{
    let n = exact::next(x, z);
    if n >= 0 { n } else { 0 }
}

// The smaller of 0 and next(x). For the crates above, which hold x and Z in range.
pub fn lowered_next(x: i32, z: i32) -> i32
    requires x_bound { nat_abs x ≤ most_x }
    requires z_bound { nat_abs z ≤ most_z }
    ensures { result ≡ lowered (next_of x z) }
{
    let n = exact::next(x, z);
    if n <= 0 { n } else { 0 }
}

// The larger in size of X1 and X2, X2 on a tie.
fn larger_in_size(x1: i32, x2: i32) -> i32
    requires { SidesFit x1 x2 }
    ensures { result ≡ larger_in_size x1 x2 }
{
    if x1 <= -x2 { x2 } else { x1 }
}

// The index of a month that decides nothing.
pub fn provisional_of(s: Running) -> i32
    requires { SidesFit s.x1 s.x2 }
    ensures { result ≡ provisional s }
{
    if s.x3 == 0 {
        larger_in_size(s.x1, s.x2)
    } else {
        s.x3
    }
}

fn steady(x3: i32, z: i32) -> SpellMonth
    requires { (nat_abs x3 ≤ most_x) × (nat_abs z ≤ most_z) }
    ensures { result ≡ steady_month x3 z }
{
    found(exact::next(x3, z), With::X3, 0)
}

fn abating(s: Running, v: i64, z: i32, percent: u32) -> SpellMonth
    requires values_fit { ValuesFit s }
    requires z_bound { nat_abs z ≤ most_z }
    ensures { result ≡ abating_month s v z percent }
{
    let after = Running {
        x1: raised_next(s.x1, z),
        x2: lowered_next(s.x2, z),
        x3: exact::next(s.x3, z),
        v,
    };
    SpellMonth {
        after,
        percent,
        decision: None,
        index: provisional_of(after),
    }
}

// A spell is founded at x, or goes on there.
fn found(x: i32, with: With, percent: u32) -> SpellMonth
    ensures { result ≡ founded x (Some with) percent }
{
    SpellMonth {
        after: Running {
            x3: x,
            ..Running::default()
        },
        percent,
        decision: Some(with),
        index: x,
    }
}

// None is founded: X1 and X2 stay.
fn leave(x1: i32, x2: i32, decision: Option<With>, index: i32, percent: u32) -> SpellMonth
    ensures { result ≡ unfounded x1 x2 decision index percent }
{
    SpellMonth {
        after: Running {
            x1,
            x2,
            ..Running::default()
        },
        percent,
        decision,
        index,
    }
}

// X1 is tried before X2.
fn try_both(x1: i32, x2: i32, percent: u32) -> SpellMonth
    requires { SidesFit x1 x2 }
    ensures { result ≡ tried x1 x2 percent }
{
    if x1 >= FOUNDS {
        return found(x1, With::X1, percent);
    }
    if x2 <= -FOUNDS {
        return found(x2, With::X2, percent);
    }
    if x1 == 0 {
        return leave(x1, x2, Some(With::X2), x2, percent);
    }
    if x2 == 0 {
        return leave(x1, x2, Some(With::X1), x1, percent);
    }
    leave(x1, x2, None, larger_in_size(x1, x2), percent)
}

fn no_spell(s: Running, z: i32, percent: u32) -> SpellMonth
    requires values_fit { ValuesFit s }
    requires z_bound { nat_abs z ≤ most_z }
    ensures { result ≡ no_spell s z percent }
{
    try_both(raised_next(s.x1, z), lowered_next(s.x2, z), percent)
}

// A wet spell is in force.
fn is_wet(x3: i32) -> bool
    ensures { result ≡ lt_z (pos in_force_beyond) x3 }
{
    x3 > IN_FORCE
}

// A drought is in force.
fn is_dry(x3: i32) -> bool
    ensures { result ≡ lt_z x3 (neg_ℤ (pos in_force_beyond)) }
{
    x3 < -IN_FORCE
}

// One month of spells: a spell in force, a drought or where `wet` a wet spell, is steady, abates or has just ended, and
// without one X1 and X2 are tried. Its chance is reckoned where CHANCE says so, and else its percent is 0: a whole series
// shows none. For the crates above, which hold the running values and Z in range.
pub fn step<const CHANCE: bool>(s: Running, z: i32) -> SpellMonth
    requires values_fit { ValuesFit s }
    requires z_bound { nat_abs z ≤ most_z }
    ensures { result ≡ chance_shown CHANCE (step_of s z) }
{
    let mut percent: u32 = 0;
    let wet = is_wet(s.x3);
    if wet | is_dry(s.x3) {
        if ending::is_steady(wet, s.v, z) {
            return steady(s.x3, z);
        }
        if !ending::has_ended(wet, s.x3, z) {
            if CHANCE {
                percent = ending::chance(wet, s.x3, s.v, z);
            }
            let v = ending::kept_v(wet, s.v, z);
            return abating(s, v, z, percent);
        }
        if CHANCE {
            percent = 100;
        }
    }
    no_spell(s, z, percent)
}
