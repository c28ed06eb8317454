// A season in one call: months of water in whole thousandths, added in order as single adds would add them.
//
// The call's promise: its answer, the run that it hands back and the whole content of every lent list equal a
// definition of what was handed in (specs/Season.antt), for every input, refused or not. That definition adds
// the months one by one with the single add's own, so what a single add promises holds of each month here.
#![tactic(auto)]

ghost use Rattle.std.specs.Prelude.{◌≡◌, ◌+◌, ◌≤◌};
ghost use Rattle.outline.specs.Refused.{answer_number};
ghost use Rattle.runs.specs.Progress.{run_of};
ghost use Rattle.season.specs.Season.{season_result, season_refusal, add_season};
ghost use Rattle.season.specs.SoFar.{most_count, begun, joined_by, season_of};
ghost use Rattle.refusals.specs.Lists.{held, read, SameLists};

use adding::{Figures, MonthAdded};
use outline::{MANY_CONSTANTS, Refusal};
use refusals::{Lists, Rows};
use runs::{Progress, Run};

// What a season answers: 0 or the refusal that stopped it, how many months were added, how many these settled,
// the figures of the last one added, and the run.
#[repr(C)]
#[derive(Drop)]
pub struct Season {
    pub number: u8,
    pub added: u32,
    pub settled: u32,
    pub figures: Figures,
    pub run: Run,
}

// A season so far: its months' counts, the last one's figures, and the run without its constants.
#[derive(Drop)]
struct SoFar {
    added: u32,
    settled: u32,
    figures: Figures,
    progress: Progress,
}

// Adds months of water, in order, until one is refused: 1, 7, then as each month's add 8 or 9, 10.
pub fn add_season(run: Run, p: &[i32], pe: &[i32], lists: &mut Lists) -> Season
    ensures same { SameLists lists.old lists.new }
    ensures outcome { season_result result (held lists.new) ≡ add_season run p.now pe.now (held lists.old) }
{
    let constants = run.constants;
    let at = runs::progress_of(run);
    let mut s = nothing_added(at);
    let asked = season_refusal(at, &constants, p, pe, &lists.rows());
    if asked.is_err() {
        return season_of(s, asked, constants);
    }
    for i in 0..p.len() {
        let month = season_month::add_listed(s.progress, &constants, p[i], pe[i], lists);
        match month {
            Ok(m) => s = joined_by(s, m),
            Err(refusal) => return season_of(s, Err(refusal), constants),
        }
    }
    season_of(s, Ok(()), constants)
}

// 1 and 7, asked once, before the first month. 1 is also for two lists of unequal length.
fn season_refusal(
    at: Progress,
    constants: &[i32; MANY_CONSTANTS],
    p: &[i32],
    pe: &[i32],
    rows: &Rows,
) -> Result<(), Refusal>
    ensures { answer_number result ≡ season_refusal (run_of at constants.now) p.now pe.now (read rows.now) }
{
    if p.len() != pe.len() {
        return Err(Refusal::BadLists);
    }
    let n = rows.lent_length();
    refusals::run_refusal(n, at, constants, rows.records)
}

// Before the first month.
fn nothing_added(at: Progress) -> SoFar
    ensures { result ≡ begun at }
{
    SoFar {
        added: 0,
        settled: 0,
        figures: Figures::default(),
        progress: at,
    }
}

// The season that stands so, ended by this answer.
fn season_of(s: SoFar, answer: Result<(), Refusal>, constants: [i32; MANY_CONSTANTS]) -> Season
    ensures { result ≡ season_of s (answer_number answer) constants }
{
    let figures = s.figures;
    let progress = s.progress;
    let last = runs::run_of(progress, constants);
    Season {
        number: outline::number(answer),
        added: s.added,
        settled: s.settled,
        figures,
        run: last,
    }
}

// A month added: its figures and where it leaves the run, and the counts with it.
fn joined_by(s: SoFar, m: MonthAdded) -> SoFar
    requires { (s.added + 1 ≤ most_count) × (s.settled + m.settled ≤ most_count) }
    ensures { result ≡ joined_by s m }
{
    let figures = m.figures;
    let progress = m.progress;
    SoFar {
        added: s.added + 1,
        settled: s.settled + m.settled,
        figures,
        progress,
    }
}
