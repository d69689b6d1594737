// The export of the totals of stays (02, W11).
ghost use Rattle.std.specs.Prelude.{◌≡◌};
ghost use Rattle.base.specs.Refusals.{code_of};
ghost use Rattle.totals.specs.Stays.{stays_answer, stays_after};

pub fn sawmauve_stays(file: &[u8], pairs: &[u32], totals: &mut [u64]) -> u32
    ensures { (result ≡ code_of (stays_answer file.now pairs.now totals.old))
        × (totals.new ≡ stays_after file.now pairs.now totals.old) }
{
    base::code_of(totals::stays(file, pairs, totals))
}
