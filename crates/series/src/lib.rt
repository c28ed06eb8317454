// The whole series: a list of Z in, indexes and marks out.
#![tactic(auto)]

ghost use Rattle.std.specs.Prelude.{◌≡◌};
ghost use Rattle.outline.specs.Refused.{answer_number};
ghost use Rattle.series.specs.Series.{all_z_fit, lists_fit, series_refusal, filled, whole_series};

use outline::Refusal;

// Every Z is looked at, with no branch, so that many are tested at once.
fn all_z_fit(z: &[i32]) -> bool
    ensures { result ≡ all_z_fit z.now }
{
    let mut fit = true;
    for &t in z {
        fit = fit & ranges::z_fits(t);
    }
    fit
}

#[tactic(auto, unfolding(crate::specs::Series::lists_fit))]
fn lists_fit(z: usize, index: usize, mark: usize) -> bool
    ensures { result ≡ lists_fit z index mark }
{
    index == z && mark == z && ranges::length_fits(z)
}

// Decided here, in the paper's order: 1, 12.
#[tactic(auto, unfolding(crate::specs::Series::series_refusal))]
fn series_refusal(z: &[i32], index: usize, mark: usize) -> Result<(), Refusal>
    ensures { answer_number result ≡ series_refusal z.now index mark }
{
    if !lists_fit(z.len(), index, mark) {
        return Err(Refusal::BadLists);
    }
    if !all_z_fit(z) {
        return Err(Refusal::BadZ);
    }
    Ok(())
}

// The whole series of a list of Z: 1, 12. Whether it is refused is all of the answer.
pub fn whole_series(z: &[i32], index: &mut [i32], mark: &mut [u8]) -> Result<(), Refusal>
    ensures { filled (answer_number result) index.new mark.new ≡ whole_series z.now index.old mark.old }
{
    series_refusal(z, index.len(), mark.len())?;
    forward::look_forward(z, index, mark);
    Ok(())
}
