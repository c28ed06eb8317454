// What a month's work asks of the calendar: the month's five constants, whether all sixty serve, and which month is
// next.
//
// `constants_at` and `next_calendar` are for the crate above, which holds the constants and the month in range before it
// calls.
#![tactic(auto)]

ghost use Rattle.std.specs.Prelude.{◌≡◌, true, not, ◌&&◌, ◌<◌, pos, nat_abs, get_or};
ghost use Rattle.outline.specs.Numbers.{many_constants};
ghost use Rattle.ranges.specs.Ranges.{constants_fit, calendar_fits};
ghost use Rattle.calendar.specs.Calendar.{constants_at, some_zero_k, next_calendar};

use outline::{LAST_MONTH, MANY_CONSTANTS, MANY_OF_A_MONTH};
use water::Constants;

// The place of K among a month's five constants.
const PLACE_OF_K: usize = 4;

// The constant at a place, which is not below zero.
fn constant(c: &[i32; MANY_CONSTANTS], i: usize) -> u32
    requires { (constants_fit c.now ≡ true) × (i < many_constants) }
    ensures { result ≡ nat_abs (get_or c.now i (pos 0)) }
{
    c[i] as u32
}

// A calendar month's five constants.
pub fn constants_at(c: &[i32; MANY_CONSTANTS], month: u32) -> Constants
    requires { (constants_fit c.now ≡ true) × (calendar_fits month ≡ true) }
    ensures { result ≡ constants_at c.now month }
{
    let at = MANY_OF_A_MONTH * (month - 1) as usize;
    Constants {
        alpha: constant(c, at),
        beta: constant(c, at + 1),
        gamma: constant(c, at + 2),
        delta: constant(c, at + 3),
        k: constant(c, at + PLACE_OF_K),
    }
}

// The sixty constants serve: each is in range, and no calendar month's K is 0.
pub fn constants_serve(c: &[i32; MANY_CONSTANTS]) -> bool
    ensures { result ≡ (constants_fit c.now && not (some_zero_k c.now)) }
{
    ranges::constants_fit_from::<1>(c)
}

// The calendar month after this one.
pub fn next_calendar(month: u32) -> u32
    requires { calendar_fits month ≡ true }
    ensures { result ≡ next_calendar month }
{
    if month < LAST_MONTH { month + 1 } else { 1 }
}
