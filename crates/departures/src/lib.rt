// D: the mean size of a calendar month's departures from its expected (CAFEC) precipitation.
//
// For the crate `constants`, which holds the rows and the constants in range: what has a `requires` is for it alone.
#![tactic(auto)]

ghost use Rattle.std.specs.Prelude.{◌≡◌, ◌+◌, ◌*◌, ◌≤◌, pos, nat_abs, ◌-ℤ◌, ◌*ℤ◌};
ghost use Rattle.door.specs.Readings.{most_reading};
ghost use Rattle.water.specs.Constants.{most_k};
ghost use Rattle.water.specs.Layers.{most_capacity};
ghost use Rattle.water.specs.Expected.{n_of, cafec_of};
ghost use Rattle.water.specs.Bounds.{ConstantsFit, most_n};
ghost use Rattle.given_rows.specs.Facts.{RowFits};
ghost use Rattle.sums.specs.Sums.{row_in};
ghost use Rattle.departures.specs.Departures.{departure_of, departures_of, mean_of};

use given_rows::{CalendarMonth, WaterRow};
use water::{Constants, Potentials};

// One, in the ten-thousandths of a constant.
const ONE: i64 = 10_000;

// The product, as a signed number.
fn product(a: u32, b: u32) -> i64
    requires { (a ≤ most_k) × (b ≤ most_reading) }
    ensures { result ≡ pos (a * b) }
{
    (a as i64) * (b as i64)
}

// What PRO adds to N, where PR is what it leaves: (gamma - beta) PRO.
fn runoff_part(k: Constants, pro: u32) -> i64
    requires constants_fit { ConstantsFit k }
    requires pro_le_most_capacity { pro ≤ most_capacity }
    ensures { result ≡ (pos k.gamma -ℤ pos k.beta) *ℤ pos pro }
{
    ((k.gamma as i64) - (k.beta as i64)) * (pro as i64)
}

// N with three products a month, since PR and PRO share the capacity: alpha PE + beta C + (gamma - beta) PRO - delta PL.
fn n_of(k: Constants, capacity: u32, pe: u32, q: Potentials) -> i64
    requires constants_fit { ConstantsFit k }
    requires pe_le_most_reading { (pe ≤ most_reading) × (capacity ≤ most_capacity) × (q.pr + q.pro ≡ capacity) × (q.pl ≤ q.pro) }
    ensures { result ≡ n_of k pe q }
{
    let fixed = product(k.beta, capacity);
    let part = runoff_part(k, q.pro);
    product(k.alpha, pe) + fixed + part - product(k.delta, q.pl)
}

// CAFEC, the rounded figure, from N.
fn cafec_of(n: i64) -> i64
    requires { nat_abs n ≤ most_n }
    ensures { result ≡ cafec_of n }
{
    exact::nearest_signed(n, ONE)
}

// The size of P - CAFEC, with these constants.
fn departure_of(k: Constants, w: WaterRow) -> u32
    requires constants_fit { ConstantsFit k }
    requires row_fits { RowFits w }
    ensures { result ≡ departure_of k w }
{
    let q = water::potentials_of(w.soil, w.pe);
    let n = n_of(k, w.soil.capacity, w.pe, q);
    let short = (w.p as i64) - cafec_of(n);
    short.unsigned_abs() as u32
}

// The departures of a calendar month over its years, summed.
fn departures_of(k: Constants, month: &CalendarMonth) -> u32
    requires { ConstantsFit k }
    ensures { result ≡ departures_of k (row_in month.now.capacity month.now.records.now month.now.at) month.now.years }
{
    let mut sum: u32 = 0;
    for y in 0..month.years {
        let w = month.row(y);
        sum += departure_of(k, w);
    }
    sum
}

// D: their mean, nearest.
pub fn mean_of(k: Constants, month: &CalendarMonth) -> u32
    requires { ConstantsFit k }
    ensures { result ≡ mean_of k (row_in month.now.capacity month.now.records.now month.now.at) month.now.years }
{
    let sum = departures_of(k, month);
    exact::nearest_unsigned(sum as u64, month.years as u64) as u32
}
