// The eight sums of a calendar month over the years, and the four constants that are their shares.
//
// For the crate `constants`, which holds the rows to what an add gives: what has a `requires` is for it alone.
#![tactic(auto)]

ghost use Rattle.std.specs.Prelude.{◌≡◌, ◌-◌, ◌*◌, ◌≤◌};
ghost use Rattle.exact.specs.Nearest.{nearest_ℕ};
ghost use Rattle.water.specs.Constants.{one, most_gamma};
ghost use Rattle.given_rows.specs.Facts.{RowFits, most_years};
ghost use Rattle.sums.specs.Sums.{plus, row_in, sums_of, gamma_of, shares_of};
ghost use Rattle.sums.specs.SumsFit.{SumsFit, Within, with_pr, without_pr, most_before};

use given_rows::{CalendarMonth, WaterRow};
use water::Constants;

// One, in the ten-thousandths of a constant.
const ONE: u64 = 10_000;

// ET and PE, R and PR, RO and PRO, L and PL, each summed over the years.
#[repr(C)]
#[derive(Clone, Copy, Default)]
pub struct Sums {
    pub et: u32,
    pub pe: u32,
    pub r: u32,
    pub pr: u32,
    pub ro: u32,
    pub pro: u32,
    pub l: u32,
    pub pl: u32,
}

// The sums with one month more, PR's apart. The potentials are worked out again, from the month's start storages and PE.
fn plus(s: Sums, w: WaterRow) -> Sums
    requires within { Within s most_before }
    requires row_fits { RowFits w }
    ensures { result ≡ without_pr (plus s w) }
{
    let q = water::potentials_of(w.soil, w.pe);
    Sums {
        et: s.et + w.et,
        pe: s.pe + w.pe,
        r: s.r + w.r,
        pr: 0,
        ro: s.ro + w.ro,
        pro: s.pro + q.pro,
        l: s.l + w.l,
        pl: s.pl + q.pl,
    }
}

// The sums of a calendar month over its years. PR and PRO share the capacity in every month, so that PR's sum is told by PRO's.
pub fn sums_of(month: &CalendarMonth) -> Sums
    ensures { result ≡ sums_of (row_in month.now.capacity month.now.records.now month.now.at) month.now.years }
{
    let mut s = Sums::default();
    for y in 0..month.years {
        let w = month.row(y);
        s = plus(s, w);
    }
    with_pr(s, month.capacity * month.years)
}

// The sums with PR's, which is what PRO's leaves of so much.
fn with_pr(s: Sums, whole: u32) -> Sums
    requires { s.pro ≤ whole }
    ensures { result ≡ with_pr s (whole - s.pro) }
{
    Sums {
        pr: whole - s.pro,
        ..s
    }
}

// What one sum is of another, in ten-thousandths, and 0 where the other is 0.
fn share(part: u32, whole: u32) -> u64
    ensures { result ≡ nearest_ℕ (one * part) whole }
{
    exact::nearest_unsigned(ONE * (part as u64), whole as u64)
}

// Gamma, which alone of the four may be out of its range.
pub fn gamma_of(s: Sums) -> u64
    ensures { result ≡ gamma_of s }
{
    share(s.ro, s.pro)
}

// Alpha, beta, gamma and delta, where gamma is in its range; K is not known yet, and 0.
pub fn shares_of(s: Sums) -> Constants
    requires sums_fit { SumsFit s most_years }
    requires s_bound { gamma_of s ≤ most_gamma }
    ensures { result ≡ shares_of s }
{
    Constants {
        alpha: share(s.et, s.pe) as u32,
        beta: share(s.r, s.pr) as u32,
        gamma: share(s.ro, s.pro) as u32,
        delta: share(s.l, s.pl) as u32,
        k: 0,
    }
}
