// The ranges of what is handed in: a number between two ends, the lengths, Z, the calendar and the sixty constants.
//
// All that is `pub` is for the crates above, which see to what a function `requires` before they call it.
#![tactic(auto)]

ghost use Rattle.std.specs.Prelude.{◌≡◌, not, ◌&&◌, ◌+◌, ◌%◌, ◌≤◌, ◌<◌, pos, nat_abs, ◌≤ℤ◌, leb, length};
ghost use Rattle.std.specs.Int.Signed.{le_z};
ghost use Rattle.outline.specs.Numbers.{many_constants, many_of_a_month, last_month, length_fits, z_fits};
ghost use Rattle.ranges.specs.Ranges.{constants_fit, calendar_fits};
ghost use Rattle.ranges.specs.Five.{five_from, fit_from};

use outline::{LAST_MONTH, MANY_OF_A_MONTH, MOST_MONTHS, MOST_Z};

// The most of alpha, beta and delta, of gamma, and of K.
pub const MOST_SHARE: i32 = 10_000;

pub const MOST_GAMMA: i32 = 50_000;

pub const MOST_K: i32 = 100_000;

// The months of a year, each with its five constants.
const MONTHS: usize = LAST_MONTH as usize;

// The capacity's ends.
pub const LEAST_CAPACITY: u32 = 100;

pub const MOST_CAPACITY: u32 = 30_000;

// The four tests between two ends stay apart: one generic over the numbers' types would ask its callers for laws of an order, and two
// of them are no such test: `beyond` has no branch, and `within` has one end.

// From the least to the most, both let in.
pub fn between(least: u32, n: u32, most: u32) -> bool
    ensures { result ≡ (leb least n && leb n most) }
{
    least <= n && n <= most
}

// The same of a number that may be below zero.
pub fn signed_between(least: u32, n: i32, most: u32) -> bool
    ensures { result ≡ (le_z (pos least) n && le_z n (pos most)) }
{
    n >= 0 && between(least, n as u32, most)
}

// Below the least or above the most: with no branch, so that many numbers can be tested at once.
pub fn beyond(least: i32, n: i32, most: i32) -> bool
    ensures { result ≡ not (le_z least n && le_z n most) }
{
    (n < least) | (n > most)
}

// At most so much in size, where so much is not below zero.
pub fn within(x: i64, most: i64) -> bool
    requires { pos 0 ≤ℤ most }
    ensures { result ≡ leb (nat_abs x) (nat_abs most) }
{
    x <= most && 0 - most <= x
}

// A length that lent lists may have.
pub fn length_fits(n: usize) -> bool
    ensures { result ≡ length_fits n }
{
    1 <= n && n <= MOST_MONTHS
}

// A Z that may be added.
pub fn z_fits(z: i32) -> bool
    ensures { result ≡ z_fits z }
{
    -MOST_Z <= z && z <= MOST_Z
}

pub fn calendar_fits(month: u32) -> bool
    ensures { result ≡ calendar_fits month }
{
    between(1, month, LAST_MONTH)
}

// Some of a month's five constants, from this place on, is out of range, or its K is below this least one: with no branch.
#[inline(always)]
fn five_beyond<const LEAST_K: i32>(c: &[i32], at: usize) -> bool
    requires { (at + many_of_a_month ≤ length c.now) × (at % many_of_a_month ≡ 0) }
    ensures { result ≡ not (five_from LEAST_K c.now at) }
{
    beyond(0, c[at], MOST_SHARE)
        | beyond(0, c[at + 1], MOST_SHARE)
        | beyond(0, c[at + 2], MOST_GAMMA)
        | beyond(0, c[at + 3], MOST_SHARE)
        | beyond(LEAST_K, c[at + 4], MOST_K)
}

// The sixty constants are each in range, with no K below this least one. All are looked at, whatever the first ones are. Compiled in
// place, where it is of a whole array, to vectors.
#[inline(always)]
pub fn constants_fit_from<const LEAST_K: i32>(c: &[i32]) -> bool
    requires { many_constants ≤ length c.now }
    ensures { result ≡ fit_from LEAST_K c.now last_month }
{
    let mut bad = false;
    for month in 0..MONTHS {
        bad = bad | five_beyond::<LEAST_K>(c, MANY_OF_A_MONTH * month);
    }
    !bad
}

// The sixty constants are each in range. A start that is refused for its constants asks this alone: which of its
// two numbers it gives.
pub fn constants_fit(c: &[i32]) -> bool
    requires { many_constants ≤ length c.now }
    ensures { result ≡ constants_fit c.now }
{
    constants_fit_from::<0>(c)
}
