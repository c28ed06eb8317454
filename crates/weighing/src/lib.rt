// The sixty constants of a span of years: four shares of each calendar month's sums, D, and K by the first weights.
//
// For the crate `constants`, which holds the rows, the lists and the weights in range: what has a `requires` is for it alone.
#![tactic(auto)]

ghost use Rattle.std.specs.Prelude.{◌≡◌, cond, not, ◌&&◌, ◌+◌, ◌*◌, ◌≤◌, pos, length, OnOk};
ghost use Rattle.std.specs.Int.Signed.{le_z};
ghost use Rattle.outline.specs.Refusals.{bad_gamma, bad_k};
ghost use Rattle.outline.specs.Refused.{answer_number};
ghost use Rattle.outline.specs.Numbers.{most_months, many_constants, many_of_a_month, last_month};
ghost use Rattle.water.specs.Constants.{most_k};
ghost use Rattle.water.specs.Bounds.{ConstantsFit};
ghost use Rattle.weighing.specs.Weighing.{span, shares_in, departure_in, gammas_fit, weights_fit, products, ks_fit};
ghost use Rattle.weighing.specs.Stores.{with_four, fours_to, means_to, ks_to, most_product, Years};

mod weights;

use given_rows::CalendarMonth;
use outline::{MANY_CONSTANTS, MANY_OF_A_MONTH, Refusal};
use ranges::{MOST_GAMMA, MOST_K};
use records::RecordNumbers;
use water::Constants;
pub use weights::Weights;

// The months of a year, as a list has them.
pub const MANY_MONTHS: usize = 12;

// 17.67, in ten-thousandths and thousandths of an inch.
const WHOLE: u64 = 176_700_000;

// Each of the twelve weights is in its range.
pub fn weights_fit(weights: &[i32]) -> bool
    requires { length weights.now ≡ last_month }
    ensures { result ≡ weights_fit weights.now last_month }
{
    kept_rows::none_of(
        weights,
        |w: &i32| -> bool
            ensures { result ≡ not (le_z (pos 0) w.now && le_z w.now (pos most_k)) }
        { ranges::beyond(0, *w, MOST_K) },
    )
}

// Four of a month's five constants, put at their places.
fn put_four(set: &mut [i32; MANY_CONSTANTS], at: usize, k: Constants)
    requires { (at + many_of_a_month ≤ many_constants) × ConstantsFit k }
    ensures { set.new ≡ with_four set.old at k }
{
    set[at] = k.alpha as i32;
    set[at + 1] = k.beta as i32;
    set[at + 2] = k.gamma as i32;
    set[at + 3] = k.delta as i32;
}

// Four of each month's five constants and D of each month, unless a gamma is out of its range: 19.
// It writes the two arrays in place, as `read_exact` does its buffer.
pub fn put_shares(
    capacity: u32,
    first: usize,
    years: u32,
    records: &[RecordNumbers],
    set: &mut [i32; MANY_CONSTANTS],
    means: &mut [u32; MANY_MONTHS],
) -> Result<(), Refusal>
    requires { (first ≤ most_months) × Years capacity records.now first years }
    ensures value { answer_number result ≡ cond (gammas_fit (span capacity records.now first years) last_month) 0 bad_gamma }
    ensures set_after { OnOk result (set.new ≡ fours_to (shares_in (span capacity records.now first years)) set.old last_month) }
    ensures means_after { OnOk result (means.new ≡ means_to (departure_in (span capacity records.now first years)) means.old last_month) }
{
    for m in 0..MANY_MONTHS {
        let month = CalendarMonth {
            capacity,
            at: first + m,
            years,
            records,
        };
        let s = sums::sums_of(&month);
        if sums::gamma_of(s) > MOST_GAMMA as u64 {
            return Err(Refusal::BadGamma);
        }
        let k = sums::shares_of(s);
        let d = departures::mean_of(k, &month);
        means[m] = d;
        put_four(set, MANY_OF_A_MONTH * m, k);
    }
    Ok(())
}

// D times weight, which 64 bits hold.
fn product(d: u32, weight: u64) -> u64
    requires { weight ≤ most_k }
    ensures { (result ≡ d * weight) × (result ≤ most_product) }
{
    (d as u64) * weight
}

// The sum of D times weight.
pub fn products(means: &[u32; MANY_MONTHS], weights: &Weights) -> u64
    ensures { result ≡ products means.now weights.now.list.now last_month }
{
    let mut sum: u64 = 0;
    for m in 0..MANY_MONTHS {
        sum += product(means[m], weights.of_month(m));
    }
    sum
}

// Each month's K by its weight, put at its place, unless one is out of its range: 20.
pub fn put_ks(total: u64, weights: &Weights, set: &mut [i32; MANY_CONSTANTS]) -> Result<(), Refusal>
    ensures value { answer_number result ≡ cond (ks_fit total weights.now.list.now last_month) 0 bad_k }
    ensures set_after { OnOk result (set.new ≡ ks_to total weights.now.list.now set.old last_month) }
{
    for m in 0..MANY_MONTHS {
        let k = exact::nearest_unsigned(WHOLE * weights.of_month(m), total);
        if k > MOST_K as u64 {
            return Err(Refusal::BadK);
        }
        set[MANY_OF_A_MONTH * m + 4] = k as i32;
    }
    Ok(())
}
