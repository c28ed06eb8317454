// Exact whole-number arithmetic: "nearest", halves away from zero, and one step of an index.
//
// These functions serve the crates above. What a user of the index calls stands in the crates above
// this one.
#![tactic(auto)]

ghost use Rattle.std.specs.Prelude.{◌≡◌, ◌≤◌, nat_abs};
ghost use Rattle.exact.specs.Bounds.{most_rounded};
ghost use Rattle.exact.specs.Nearest.{nearest_ℕ, nearest, clip};
ghost use Rattle.exact.specs.Next.{next_of};
ghost use Rattle.outline.specs.Numbers.{most_x, most_z, next_divisor};

use outline::{NEXT_DIVISOR, WEIGHT_OF_X, WEIGHT_OF_Z};

// The whole number nearest to n / d, halves up, and 0 where d is 0.
pub fn nearest_unsigned(n: u64, d: u64) -> u64
    ensures { result ≡ nearest_ℕ n d }
{
    if d == 0 {
        return 0;
    }
    let q = n / d;
    let r = n % d;
    if r >= d - r { q + 1 } else { q }
}

// The whole number nearest to n / d, halves away from zero, and 0 where d is not above 0. For the crates above, which
// hold n within the bound, so that half of any d is added to it without wrapping.
pub fn nearest_signed(n: i64, d: i64) -> i64
    requires { nat_abs n ≤ most_rounded }
    ensures { result ≡ nearest n (clip d) }
{
    if d <= 0 {
        return 0;
    }
    let half = d / 2;
    let m = if n < 0 { n - half } else { n + half };
    m / d
}

const HALF_OF_NEXT: i64 = NEXT_DIVISOR / 2;

// nearest_signed of n and the divisor of next(x), with the two signs divided apart: by a constant, and where the sign is
// known, a product and a shift divide.
fn nearest_of_next(n: i64) -> i64
    requires { nat_abs n ≤ most_rounded }
    ensures { result ≡ nearest n next_divisor }
{
    if n < 0 {
        (n - HALF_OF_NEXT) / NEXT_DIVISOR
    } else {
        (n + HALF_OF_NEXT) / NEXT_DIVISOR
    }
}

// next(x) = nearest to (2691 x + 1000 Z) / 3000. For the crates above, which hold x and Z in range.
pub fn next(x: i32, z: i32) -> i32
    requires x_bound { nat_abs x ≤ most_x }
    requires z_bound { nat_abs z ≤ most_z }
    ensures value { result ≡ next_of x z }
    ensures result_bound { nat_abs result ≤ most_x }
{
    let n = WEIGHT_OF_X * (x as i64) + WEIGHT_OF_Z * (z as i64);
    nearest_of_next(n) as i32
}
