// A month taken whole, of water or as a Z, once nothing is refused: its spells, its record, V, and its answer.
//
// For `drought` and `season_month`, which ask for every refusal first, and `reworking`, which holds all in range: what has a
// `requires` is for them alone. Each of them gets the month compiled in place, which a function that is called from three would
// not be otherwise.
#![tactic(auto)]

ghost use Rattle.std.specs.Prelude.{◌≡◌, true, ◌≤◌, ◌<◌, nat_abs, length};
ghost use Rattle.outline.specs.Numbers.{most_z};
ghost use Rattle.door.specs.Readings.{most_reading};
ghost use Rattle.ranges.specs.Ranges.{calendar_fits};
ghost use Rattle.water.specs.Layers.{SoilFits};
ghost use Rattle.runs.specs.Progress.{run_of};
ghost use Rattle.refusals.specs.Lists.{held, SameLists};
ghost use Rattle.refusals.specs.Book.{columns_of};
ghost use Rattle.modified.specs.Modified.{modified_of};
ghost use Rattle.records.specs.Record.{z_record};
ghost use Rattle.adding.specs.Figures.{no_water};
ghost use Rattle.adding.specs.Taken.{result_of, taken_water};
ghost use Rattle.adding.specs.Ready.{Ready, Watered};
ghost use Rattle.adding.specs.Progress.{added_of, Takes};

use adding::{MonthAdded, WaterFigures};
use door::MonthKinds;
use outline::MANY_CONSTANTS;
use refusals::Lists;
use runs::Progress;

// The balance of the run's month with precipitation p and PE pe, read from readings of these kinds, and the month added.
#[inline(always)]
pub fn add_measured(
    at: Progress,
    constants: &[i32; MANY_CONSTANTS],
    p: u32,
    pe: u32,
    kinds: MonthKinds,
    lists: &mut Lists,
) -> MonthAdded
    requires ready { Ready at.months at.opens at.values (columns_of (held lists.old)) }
    requires months_in_bounds { (at.months < length lists.old.records.now) × (at.months < length lists.old.v.now) }
    requires watered { Watered (run_of at constants.now) }
    requires p_le_most_reading { (p ≤ most_reading) × (pe ≤ most_reading) }
    ensures same { SameLists lists.old lists.new }
    ensures outcome { result_of (added_of result constants.now) (held lists.new) ≡ taken_water (run_of at constants.now) p pe kinds (held lists.old) }
{
    let soil = at.soil;
    let values = at.values;
    let k = calendar::constants_at(constants, at.calendar);
    let m = water::month_of(soil, p, pe, k);
    let s = adding::add_spells(
        at.months,
        at.opens,
        values,
        m.z,
        lists.x1,
        lists.x2,
        lists.x3,
        lists.index,
        lists.mark,
    );
    let after = s.values;
    let kept = records::water_record(soil, p, pe, m, s.modified, kinds.p);
    records::put(at.months as usize, kept, lists.records);
    records::put_v(at.months as usize, after.v, lists.v);
    adding::watered(at, p, pe, kinds, m, s)
}

// An added Z: no water, and the storages stay.
#[inline(always)]
pub fn add_z(at: Progress, z: i32, lists: &mut Lists) -> MonthAdded
    requires ready { Ready at.months at.opens at.values (columns_of (held lists.old)) }
    requires months_in_bounds { (at.months < length lists.old.records.now) × (at.months < length lists.old.v.now) }
    requires z_bound { (nat_abs z ≤ most_z) × (calendar_fits at.calendar ≡ true) × SoilFits at.soil }
    ensures same { SameLists lists.old lists.new }
    ensures outcome { Takes at at.soil no_water z (z_record at.soil z (modified_of at.values z)) (held lists.old) result (held lists.new) }
{
    let soil = at.soil;
    let values = at.values;
    let water = WaterFigures::default();
    let s = adding::add_spells(
        at.months,
        at.opens,
        values,
        z,
        lists.x1,
        lists.x2,
        lists.x3,
        lists.index,
        lists.mark,
    );
    let after = s.values;
    let kept = records::z_record(soil, z, s.modified);
    records::put(at.months as usize, kept, lists.records);
    records::put_v(at.months as usize, after.v, lists.v);
    adding::month_added(at, soil, water, z, s)
}
