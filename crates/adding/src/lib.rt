// The parts of a month's work, once nothing is refused: its spells, written to the columns, its figures, and its answer.
//
// For `taking`, which adds a month, and `drought` and `season`, which make the calls and ask for every refusal first: what has a
// `requires` is for them alone. A run goes through here without its sixty constants, and an answer is put together once, where a
// call hands it back.
#![tactic(auto)]

ghost use Rattle.std.specs.Prelude.{◌≡◌, true, ◌≤◌, ◌<◌, nat_abs};
ghost use Rattle.outline.specs.Numbers.{most_z, most_months};
ghost use Rattle.ranges.specs.Ranges.{calendar_fits};
ghost use Rattle.refusals.specs.Columns.{columns};
ghost use Rattle.adding.specs.Figures.{water_figures};
ghost use Rattle.adding.specs.Taken.{soil_after};
ghost use Rattle.adding.specs.Ready.{Ready};
ghost use Rattle.adding.specs.Progress.{numbered, not_added, month_added};
ghost use Rattle.adding.specs.Spelled.{Spells};

use door::MonthKinds;
use outline::MANY_CONSTANTS;
use runs::{Progress, Run};
use spells::Running;
use water::{Month, Soil};

// The water of a month, and the kinds of its two readings: all 0 for an added Z.
#[repr(C)]
#[derive(Default, Drop)]
pub struct WaterFigures {
    pub p: u32,
    pub pe: u32,
    pub ls: u32,
    pub lu: u32,
    pub et: u32,
    pub r: u32,
    pub ro: u32,
    pub pr: u32,
    pub pro: u32,
    pub pl: u32,
    pub cafec: i32,
    pub kinds: MonthKinds,
}

// A month's figures.
#[repr(C)]
#[derive(Default, Drop)]
pub struct Figures {
    pub water: WaterFigures,
    pub z: i32,
    pub percent: u32,
    pub x1: i32,
    pub x2: i32,
    pub x3: i32,
    pub index: i32,
    pub mark: u8,
    pub modified: i32,
}

// What an add answers: 0 or its refusal, the months that it settled, the month's figures, and the run.
#[repr(C)]
#[derive(Drop)]
pub struct Added {
    pub number: u8,
    pub settled: u32,
    pub figures: Figures,
    pub run: Run,
}

// A month that is added: what an add answers of it, without the run's constants.
#[derive(Drop)]
pub struct MonthAdded {
    pub settled: u32,
    pub figures: Figures,
    pub progress: Progress,
}

// ---- the month

// What a month of spells leaves beside the columns.
#[derive(Drop)]
pub struct Spelled {
    pub settled: u32,
    pub opens: u32,
    pub percent: u32,
    pub index: i32,
    pub mark: u8,
    pub modified: i32,
    pub values: Running,
}

// A month of spells, written to the columns. Of the run it takes what spells need.
pub fn add_spells(
    months: u32,
    opens: u32,
    values: Running,
    z: i32,
    x1: &mut [i32],
    x2: &mut [i32],
    x3: &mut [i32],
    index: &mut [i32],
    mark: &mut [u8],
) -> Spelled
    requires ready { Ready months opens values (columns x1.old x2.old x3.old index.old mark.old) }
    requires z_bound { nat_abs z ≤ most_z }
    ensures { Spells months opens values z (columns x1.old x2.old x3.old index.old mark.old) result (columns x1.new x2.new x3.new index.new mark.new) }
{
    let month = spells::step::<true>(values, z);
    let modified = modified::modified(values, z, month);
    let added = history::add(
        x1,
        x2,
        x3,
        index,
        mark,
        months as usize,
        opens as usize,
        month,
    );
    Spelled {
        settled: added.settled as u32,
        opens: added.opens as u32,
        percent: month.percent,
        index: month.index,
        mark: added.mark,
        modified,
        values: month.after,
    }
}

// ---- the answer

// A month of water whose spells are written, put together.
pub fn watered(at: Progress, p: u32, pe: u32, kinds: MonthKinds, m: Month, s: Spelled) -> MonthAdded
    requires { (at.months < most_months) × (calendar_fits at.calendar ≡ true) }
    ensures { result ≡ month_added at (soil_after at.soil m) (water_figures p pe kinds m) m.z s }
{
    let soil = at.soil;
    let left = Soil {
        capacity: soil.capacity,
        surface: m.surface,
        underlying: m.underlying,
    };
    let water = water_figures(p, pe, kinds, m);
    month_added(at, left, water, m.z, s)
}

fn water_figures(p: u32, pe: u32, kinds: MonthKinds, m: Month) -> WaterFigures
    ensures { result ≡ water_figures p pe kinds m }
{
    WaterFigures {
        p,
        pe,
        ls: m.ls,
        lu: m.lu,
        et: m.et,
        r: m.r,
        ro: m.ro,
        pr: m.pr,
        pro: m.pro,
        pl: m.pl,
        cafec: m.cafec,
        kinds,
    }
}

// The figures of a month and the run with it added.
pub fn month_added(at: Progress, soil: Soil, water: WaterFigures, z: i32, s: Spelled) -> MonthAdded
    requires { (at.months < most_months) × (calendar_fits at.calendar ≡ true) }
    ensures { result ≡ month_added at soil water z s }
{
    let values = s.values;
    let figures = Figures {
        water,
        z,
        percent: s.percent,
        x1: values.x1,
        x2: values.x2,
        x3: values.x3,
        index: s.index,
        mark: s.mark,
        modified: s.modified,
    };
    let progress = Progress {
        months: at.months + 1,
        opens: s.opens,
        calendar: calendar::next_calendar(at.calendar),
        soil,
        values,
    };
    MonthAdded {
        settled: s.settled,
        figures,
        progress,
    }
}

// A month that is refused: nothing settled, all figures 0, and the run given.
pub fn not_added(at: Progress) -> MonthAdded
    ensures { result ≡ not_added at }
{
    MonthAdded {
        settled: 0,
        figures: Figures::default(),
        progress: at,
    }
}

// The answer to a run with these constants: 0 and the month that was added, or the number of its refusal and the month that was not.
pub fn answer_of(number: u8, month: MonthAdded, constants: [i32; MANY_CONSTANTS]) -> Added
    ensures { result ≡ numbered number month constants }
{
    let figures = same_figures(month.figures);
    let progress = month.progress;
    let next = runs::run_of(progress, constants);
    Added {
        number,
        settled: month.settled,
        figures,
        run: next,
    }
}

// The same figures, field by field: so they are compiled to one copy, and otherwise to two.
fn same_figures(f: Figures) -> Figures
    ensures { result ≡ f }
{
    let w = f.water;
    let kinds = w.kinds;
    let water = WaterFigures {
        p: w.p,
        pe: w.pe,
        ls: w.ls,
        lu: w.lu,
        et: w.et,
        r: w.r,
        ro: w.ro,
        pr: w.pr,
        pro: w.pro,
        pl: w.pl,
        cafec: w.cafec,
        kinds,
    };
    Figures {
        water,
        z: f.z,
        percent: f.percent,
        x1: f.x1,
        x2: f.x2,
        x3: f.x3,
        index: f.index,
        mark: f.mark,
        modified: f.modified,
    }
}
