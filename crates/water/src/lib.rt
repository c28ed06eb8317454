// One month of water: the balance of the two layers, the potentials, expected (CAFEC) precipitation, Z.
//
// Every amount is in whole thousandths of an inch, every constant in ten-thousandths. `month_of` is for the
// crate above, which holds the soil, the readings and the constants in range before it calls.
#![tactic(auto)]

ghost use Rattle.std.specs.Prelude.{◌≡◌, ◌+◌, ◌*◌, ◌≤◌, ◌<◌, nat_abs};
ghost use Rattle.door.specs.Readings.{most_reading};
ghost use Rattle.water.specs.Layers.{surface_holds, underlying_holds, most_capacity, SoilFits};
ghost use Rattle.water.specs.Constants.{most_k};
ghost use Rattle.water.specs.Balance.{under_loss, dry_month, wet_month, balance_of};
ghost use Rattle.water.specs.Expected.{potentials_of, n_of, z_of, expected_of, month_of};
ghost use Rattle.water.specs.Bounds.{ConstantsFit, most_n};

// One, in the ten-thousandths of a constant.
const ONE: i64 = 10_000;

// One, in the ten-thousandths of K times the ten-thousandths of another constant.
const Z_DIVISOR: i64 = ONE * ONE;

// One inch, which the surface layer holds where the soil does.
const SURFACE: u32 = 1_000;

// The soil: its capacity, and what each layer holds.
#[repr(C)]
#[derive(Clone, Copy, Default)]
pub struct Soil {
    pub capacity: u32,
    pub surface: u32,
    pub underlying: u32,
}

// One calendar month's five constants.
#[derive(Clone, Copy)]
pub struct Constants {
    pub alpha: u32,
    pub beta: u32,
    pub gamma: u32,
    pub delta: u32,
    pub k: u32,
}

// Losses, evapotranspiration, recharge, runoff, and what the layers hold at the end.
#[derive(Drop)]
pub struct Balance {
    pub ls: u32,
    pub lu: u32,
    pub et: u32,
    pub r: u32,
    pub ro: u32,
    pub surface: u32,
    pub underlying: u32,
}

// Potential recharge, runoff and loss.
#[derive(Clone, Copy)]
pub struct Potentials {
    pub pr: u32,
    pub pro: u32,
    pub pl: u32,
}

// Expected precipitation and the anomaly.
#[derive(Drop)]
pub struct Expected {
    pub cafec: i32,
    pub z: i32,
}

// A month of water, whole: the balance, the potentials, what was expected. Their fields stand in it side by side, as in the record of
// the month, which is made of it: three values in one would be taken apart again there.
#[derive(Clone, Copy)]
pub struct Month {
    pub ls: u32,
    pub lu: u32,
    pub et: u32,
    pub r: u32,
    pub ro: u32,
    pub pr: u32,
    pub pro: u32,
    pub pl: u32,
    pub cafec: i32,
    pub z: i32,
    pub surface: u32,
    pub underlying: u32,
}

// What the surface layer holds when it is full: an inch, or all of a thinner soil.
pub fn surface_holds(capacity: u32) -> u32
    ensures { result ≡ surface_holds capacity }
{
    SURFACE.min(capacity)
}

// What the underlying layer holds when it is full: the rest, possibly nothing.
pub fn underlying_holds(capacity: u32) -> u32
    ensures { result ≡ underlying_holds capacity }
{
    capacity.saturating_sub(SURFACE)
}

// The product, which a u64 always holds.
fn times(a: u32, b: u32) -> u64
    ensures { result ≡ a * b }
{
    (a as u64) * (b as u64)
}

// What the underlying layer loses to a want that the surface layer has not met: at most what it holds.
fn under_loss(want: u32, su: u32, capacity: u32) -> u32
    requires want_le_most_reading { (want ≤ most_reading) × (su ≤ capacity) }
    requires capacity_nonzero { (0 < capacity) × (capacity ≤ most_capacity) }
    ensures { result ≡ under_loss want su capacity }
{
    let part = (want * su + capacity / 2) / capacity;
    part.min(su)
}

// P below PE: the surface layer gives first, then the underlying one. For the crates above, which hold the soil and the readings in
// range.
pub fn dry_month(s: Soil, p: u32, pe: u32) -> Balance
    requires soil_fits { SoilFits s }
    requires p_le_pe { (p ≤ pe) × (pe ≤ most_reading) }
    ensures { result ≡ dry_month s p pe }
{
    let want = pe - p;
    let ls = s.surface.min(want);
    let lu = under_loss(want - ls, s.underlying, s.capacity);
    Balance {
        ls,
        lu,
        et: p + ls + lu,
        r: 0,
        ro: 0,
        surface: s.surface - ls,
        underlying: s.underlying - lu,
    }
}

// P at least PE: the excess fills the surface layer, then the underlying one, and the rest runs off. For the crates above, as
// `dry_month`.
pub fn wet_month(s: Soil, p: u32, pe: u32) -> Balance
    requires soil_fits { SoilFits s }
    requires pe_le_p { (pe ≤ p) × (p ≤ most_reading) }
    ensures { result ≡ wet_month s p pe }
{
    let excess = p - pe;
    let first = excess.min(surface_holds(s.capacity) - s.surface);
    let left = excess - first;
    let second = left.min(underlying_holds(s.capacity) - s.underlying);
    Balance {
        ls: 0,
        lu: 0,
        et: pe,
        r: first + second,
        ro: left - second,
        surface: s.surface + first,
        underlying: s.underlying + second,
    }
}

fn balance_of(s: Soil, p: u32, pe: u32) -> Balance
    requires soil_fits { SoilFits s }
    requires p_le_most_reading { (p ≤ most_reading) × (pe ≤ most_reading) }
    ensures { result ≡ balance_of s p pe }
{
    if p < pe {
        dry_month(s, p, pe)
    } else {
        wet_month(s, p, pe)
    }
}

// The potentials, from the start storages. For the crates above, as `dry_month`.
pub fn potentials_of(s: Soil, pe: u32) -> Potentials
    requires soil_fits { SoilFits s }
    requires pe_le_most_reading { pe ≤ most_reading }
    ensures { result ≡ potentials_of s pe }
{
    let pls = pe.min(s.surface);
    let plu = under_loss(pe - pls, s.underlying, s.capacity);
    Potentials {
        pr: s.capacity - s.surface - s.underlying,
        pro: s.surface + s.underlying,
        pl: pls + plu,
    }
}

// N, in the thousandths of an inch times the ten-thousandths of a constant.
fn n_of(k: Constants, pe: u32, q: Potentials) -> i64
    requires constants_fit { ConstantsFit k }
    requires pe_le_most_reading { pe ≤ most_reading }
    requires pro_bound { (q.pr + q.pro ≤ most_capacity) × (q.pl ≤ q.pro) }
    ensures { result ≡ n_of k pe q }
{
    let wanted = times(k.alpha, pe) + times(k.beta, q.pr) + times(k.gamma, q.pro);
    let lost = times(k.delta, q.pl);
    wanted as i64 - lost as i64
}

// Z, rounded once, from N.
fn z_of(k: u32, p: u32, n: i64) -> i32
    requires { (k ≤ most_k) × (p ≤ most_reading) × (nat_abs n ≤ most_n) }
    ensures { result ≡ z_of k p n }
{
    let short = ONE * (p as i64) - n;
    exact::nearest_signed((k as i64) * short, Z_DIVISOR) as i32
}

// Expected precipitation, and Z from N: not from the expected precipitation, which is rounded already.
fn expected_of(k: Constants, p: u32, pe: u32, q: Potentials) -> Expected
    requires constants_fit { ConstantsFit k }
    requires p_le_most_reading { (p ≤ most_reading) × (pe ≤ most_reading) }
    requires pro_bound { (q.pr + q.pro ≤ most_capacity) × (q.pl ≤ q.pro) }
    ensures { result ≡ expected_of k p pe q }
{
    let n = n_of(k, pe, q);
    let cafec = exact::nearest_signed(n, ONE);
    Expected {
        cafec: cafec as i32,
        z: z_of(k.k, p, n),
    }
}

// A month of water. For the crate above, which holds the soil, the readings and the constants in range.
pub fn month_of(s: Soil, p: u32, pe: u32, k: Constants) -> Month
    requires soil_fits { SoilFits s }
    requires p_le_most_reading { (p ≤ most_reading) × (pe ≤ most_reading) }
    requires constants_fit { ConstantsFit k }
    ensures { result ≡ month_of s p pe k }
{
    let b = balance_of(s, p, pe);
    let q = potentials_of(s, pe);
    let e = expected_of(k, p, pe, q);
    Month {
        ls: b.ls,
        lu: b.lu,
        et: b.et,
        r: b.r,
        ro: b.ro,
        pr: q.pr,
        pro: q.pro,
        pl: q.pl,
        cafec: e.cafec,
        z: e.z,
        surface: b.surface,
        underlying: b.underlying,
    }
}
