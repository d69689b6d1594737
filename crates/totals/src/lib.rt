// The totals of stays in a file (02, W11).
#![tactic(auto)]

mod days;
mod pairs;

ghost use Rattle.std.specs.Prelude.{◌≡◌, Ok};
ghost use Rattle.file.specs.Reader.{read_file};
ghost use Rattle.totals.specs.Stays.{stays_answer, stays_after};

use base::Refusal;
use file::Figures;

// The totals of stays in an accepted file.
fn stays_in(file: &[u8], g: Figures, pairs: &[u32], totals: &mut [u64]) -> Result<(), Refusal>
    requires { read_file file.now ≡ Ok g }
    ensures { (result ≡ stays_answer file.now pairs.now totals.old)
        × (totals.new ≡ stays_after file.now pairs.now totals.old) }
{
    if !pairs::lists_fit(pairs, totals.len()) {
        return Err(Refusal::WrongPairs);
    }
    if !pairs::pairs_fit(pairs, g.days) {
        return Err(Refusal::WrongStay);
    }
    let n = 1440 / g.interval as usize;
    days::total_days(file, n, g.days, pairs, totals);
    Ok(())
}

// Totals the stays: `pairs` holds a first day and the day after the last for each, and `totals` takes the sums of their slots.
pub fn stays(file: &[u8], pairs: &[u32], totals: &mut [u64]) -> Result<(), Refusal>
    ensures { (result ≡ stays_answer file.now pairs.now totals.old)
        × (totals.new ≡ stays_after file.now pairs.now totals.old) }
{
    let g = file::read(file)?;
    stays_in(file, g, pairs, totals)
}
