// A month of a season's two lists, added as the single add would add it.
//
// For the crate `season`, which has asked for 1 and 7: `add_listed` has a `requires`.
#![tactic(auto)]

ghost use Rattle.std.specs.Prelude.{◌≡◌};
ghost use Rattle.refusals.specs.Lists.{held, SameLists};
ghost use Rattle.refusals.specs.Good.{Good};
ghost use Rattle.runs.specs.Progress.{run_of};
ghost use Rattle.adding.specs.Taken.{result_of};
ghost use Rattle.adding.specs.Progress.{answer_of};
ghost use Rattle.drought.specs.Calls.{add_water};
ghost use Rattle.season_month.specs.Listed.{listed};

use adding::MonthAdded;
use door::{MonthKinds, Reading};
use outline::{MANY_CONSTANTS, Refusal};
use refusals::Lists;
use runs::Progress;

// A month of no reading in a list.
const MISSING_MONTH: i32 = -1;

// The single add of a month of the lists, to columns and a run that have been asked for 1 and 7.
pub fn add_listed(
    at: Progress,
    constants: &[i32; MANY_CONSTANTS],
    p: i32,
    pe: i32,
    lists: &mut Lists,
) -> Result<MonthAdded, Refusal>
    requires { Good (run_of at constants.now) (held lists.old) }
    ensures same { SameLists lists.old lists.new }
    ensures outcome { result_of (answer_of result at constants.now) (held lists.new) ≡ add_water (run_of at constants.now) (listed p) (listed pe) (held lists.old) }
{
    let first = door::read(reading_of(p))?;
    let second = door::read(reading_of(pe))?;
    refusals::room_refusal(lists.x1.len(), at.months)?;
    let kinds = MonthKinds {
        p: first.kind().number(),
        pe: second.kind().number(),
    };
    let month = taking::add_measured(at, constants, first.water(), second.water(), kinds, lists);
    Ok(month)
}

// A month of a list as a reading.
// By `if` and not `match`, which tells a proof nothing of a number that is not the constant.
fn reading_of(n: i32) -> Reading
    ensures { result ≡ listed n }
{
    if n == MISSING_MONTH {
        return Reading::Missing;
    }
    Reading::Whole(n)
}
