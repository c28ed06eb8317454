// A run: what it holds, and when what is handed in is one.
#![tactic(auto)]

ghost use Rattle.std.specs.Prelude.{◌≡◌, leb, nat_abs};
ghost use Rattle.outline.specs.Numbers.{most_x};
ghost use Rattle.runs.specs.Progress.{progress_of, run_of};
ghost use Rattle.runs.specs.Runs.{soil_fits, sizes_fit, signs_fit, v_fits, is_run};

use outline::{MANY_CONSTANTS, MOST_U, MOST_X};
use ranges::{LEAST_CAPACITY, MOST_CAPACITY};
use spells::Running;
use water::Soil;

// A run, handed in and back by value.
#[repr(C)]
#[derive(Clone, Copy)]
pub struct Run {
    // How many months it holds, and how many of them, the last ones, are open.
    pub months: u32,
    pub opens: u32,
    // The calendar month of the next month, 1 to 12.
    pub calendar: u32,
    pub soil: Soil,
    pub values: Running,
    // The station's sixty constants, January first.
    pub constants: [i32; MANY_CONSTANTS],
}

// A run without its constants: what a month changes of it.
#[derive(Clone, Copy)]
pub struct Progress {
    pub months: u32,
    pub opens: u32,
    pub calendar: u32,
    pub soil: Soil,
    pub values: Running,
}

// A run without its constants. No `From`: a conversion would keep them.
pub fn progress_of(run: Run) -> Progress
    ensures { result ≡ progress_of run }
{
    Progress {
        months: run.months,
        opens: run.opens,
        calendar: run.calendar,
        soil: run.soil,
        values: run.values,
    }
}

// The run that stands so, with these constants. C has its fields side by side, so that a run holds no `Progress`.
pub fn run_of(s: Progress, constants: [i32; MANY_CONSTANTS]) -> Run
    ensures { result ≡ run_of s constants }
{
    Run {
        months: s.months,
        opens: s.opens,
        calendar: s.calendar,
        soil: s.soil,
        values: s.values,
        constants,
    }
}

#[tactic(auto, unfolding(crate::specs::Runs::soil_fits))]
fn soil_fits(s: Soil) -> bool
    ensures { result ≡ soil_fits s }
{
    ranges::between(LEAST_CAPACITY, s.capacity, MOST_CAPACITY)
        && s.surface <= water::surface_holds(s.capacity)
        && s.underlying <= water::underlying_holds(s.capacity)
}

fn size_fits(x: i32) -> bool
    ensures { result ≡ leb (nat_abs x) most_x }
{
    ranges::within(x as i64, MOST_X)
}

#[tactic(auto, unfolding(crate::specs::Runs::sizes_fit))]
fn sizes_fit(v: Running) -> bool
    ensures { result ≡ sizes_fit v }
{
    size_fits(v.x1) && size_fits(v.x2) && size_fits(v.x3)
}

// Each way out by itself: the four tests joined by && cost a call on a run 6 instructions more.
fn signs_fit(v: Running) -> bool
    ensures { result ≡ signs_fit v }
{
    if v.x1 < 0 {
        return false;
    }
    if v.x2 > 0 {
        return false;
    }
    if v.v > 0 {
        return v.x3 < 0;
    }
    if v.v < 0 {
        return v.x3 > 0;
    }
    true
}

#[tactic(auto, unfolding(crate::specs::Runs::v_fits))]
fn v_fits(months: u32, v: Running) -> bool
    ensures { result ≡ v_fits months v }
{
    ranges::within(v.v, MOST_U * months as i64)
}

// What is handed in is a run, for columns of this length.
#[tactic(auto, unfolding(crate::specs::Runs::is_run))]
pub fn is_run(long: usize, at: Progress, constants: &[i32; MANY_CONSTANTS]) -> bool
    ensures { result ≡ is_run long (run_of at constants.now) }
{
    at.months as usize <= long
        && at.opens <= at.months
        && calendar::constants_serve(constants)
        && soil_fits(at.soil)
        && ranges::calendar_fits(at.calendar)
        && sizes_fit(at.values)
        && signs_fit(at.values)
        && v_fits(at.months, at.values)
}
