// How a run starts.
#![tactic(auto)]

ghost use Rattle.std.specs.Prelude.{◌≡◌, true, cond, ◌≤◌, length};
ghost use Rattle.outline.specs.Numbers.{many_constants};
ghost use Rattle.outline.specs.Refusals.{bad_constant, zero_k};
ghost use Rattle.outline.specs.Refused.{refusal_number, answer_number};
ghost use Rattle.ranges.specs.Ranges.{constants_fit};
ghost use Rattle.spells.specs.Values.{fresh};
ghost use Rattle.starts.specs.Start.{capacity_fits, storages_fit, month_fits, start_refusal, zero_run, started, start_of};

use outline::{LAST_MONTH, MANY_CONSTANTS, Refusal};
use ranges::{LEAST_CAPACITY, MOST_CAPACITY};
use runs::Run;
use spells::Running;
use water::Soil;

#[repr(C)]
#[derive(Drop)]
pub struct Started {
    pub number: u8,
    pub run: Run,
}

fn capacity_fits(c: i32) -> bool
    ensures { result ≡ capacity_fits c }
{
    ranges::signed_between(LEAST_CAPACITY, c, MOST_CAPACITY)
}

fn storages_fit(c: i32, ss: i32, su: i32) -> bool
    requires { capacity_fits c ≡ true }
    ensures { result ≡ storages_fit c ss su }
{
    let capacity = c as u32;
    ranges::signed_between(0, ss, water::surface_holds(capacity))
        && ranges::signed_between(0, su, water::underlying_holds(capacity))
}

fn month_fits(m: i32) -> bool
    ensures { result ≡ month_fits m }
{
    ranges::signed_between(1, m, LAST_MONTH)
}

// The refusal of sixty constants that do not serve: 3, or else 21.
fn constants_refusal(c: &[i32]) -> Refusal
    requires { many_constants ≤ length c.now }
    ensures { refusal_number result ≡ cond (constants_fit c.now) zero_k bad_constant }
{
    if ranges::constants_fit(c) {
        Refusal::ZeroK
    } else {
        Refusal::BadConstant
    }
}

// Whether a start is refused where sixty constants are given: decided here, in the paper's order, with 21 after 3. Whether they
// serve is asked of the copy, and why not of what was given, so that the copy is read once and stays in registers.
fn start_refusal(
    given: &[i32],
    kept: &[i32; MANY_CONSTANTS],
    c: i32,
    ss: i32,
    su: i32,
    m: i32,
) -> Result<(), Refusal>
    requires { (length given.now ≡ many_constants) × (kept.now ≡ given.now) }
    ensures { answer_number result ≡ start_refusal given.now c ss su m }
{
    if !calendar::constants_serve(kept) {
        return Err(constants_refusal(given));
    }
    if !capacity_fits(c) {
        return Err(Refusal::BadCapacity);
    }
    if !storages_fit(c, ss, su) {
        return Err(Refusal::BadStorage);
    }
    if !month_fits(m) {
        return Err(Refusal::BadMonth);
    }
    Ok(())
}

// The run's own copy of the constants. `copy_from_slice` makes a start 35 instructions longer, by `bench/run`'s count.
fn copied(constants: &[i32]) -> [i32; MANY_CONSTANTS]
    requires { length constants.now ≡ many_constants }
    ensures { result ≡ constants.now }
{
    let mut kept = [0i32; MANY_CONSTANTS];
    for i in 0..MANY_CONSTANTS {
        kept[i] = constants[i];
    }
    kept
}

// A run of no months.
#[inline(always)]
fn no_months(calendar: u32, soil: Soil, constants: [i32; MANY_CONSTANTS]) -> Run
    ensures { result ≡ record { months = 0; opens = 0; calendar = calendar; soil = soil; values = fresh; constants = constants } }
{
    Run {
        months: 0,
        opens: 0,
        calendar,
        soil,
        values: Running::default(),
        constants,
    }
}

// All zeros. No `Default`: an array of sixty has none.
fn zero_run() -> Run
    ensures { result ≡ zero_run }
{
    no_months(0, Soil::default(), [0; MANY_CONSTANTS])
}

// A start that is refused.
fn refused(refusal: Refusal) -> Started
    ensures { result ≡ started (refusal_number refusal) zero_run }
{
    Started {
        number: refusal.number(),
        run: zero_run(),
    }
}

// Starts a run, or refuses with 2, 3, 21, 4, 5 or 6 and a run of all zeros.
pub fn start(constants: &[i32], capacity: i32, surface: i32, underlying: i32, month: i32) -> Started
    ensures { result ≡ start_of constants.now capacity surface underlying month }
{
    if constants.len() != MANY_CONSTANTS {
        return refused(Refusal::NotSixty);
    }
    let kept = copied(constants);
    if let Err(refusal) = start_refusal(constants, &kept, capacity, surface, underlying, month) {
        return refused(refusal);
    }
    let soil = Soil {
        capacity: capacity as u32,
        surface: surface as u32,
        underlying: underlying as u32,
    };
    Started {
        number: 0,
        run: no_months(month as u32, soil, kept),
    }
}
