// The list of pairs: what is refused with 18 and 19.
ghost use Rattle.std.specs.Prelude.{◌≡◌};
ghost use Rattle.base.specs.Lists.{every};
ghost use Rattle.totals.specs.Stays.{list_tests, pair_ok, pairs_ok};

// At most 64 pairs of two numbers each, and as many totals.
pub fn lists_fit(pairs: &[u32], totals: usize) -> bool
    ensures { result ≡ every (list_tests pairs.now totals) }
{
    let count = pairs.len() / 2;
    count <= 64 && pairs.len() % 2 == 0 && totals == count
}

fn pair_ok(first: u32, end: u32, days: u32) -> bool
    ensures { result ≡ pair_ok days first end }
{
    first < end && end <= days
}

// Each first number is below its second, and none exceeds D.
#[tactic(auto, using(base::proofs::Sums::all_done))]
pub fn pairs_fit(pairs: &[u32], days: u32) -> bool
    ensures { result ≡ pairs_ok days pairs.now }
{
    let (whole, _) = pairs.as_chunks::<2>();
    for pair in whole {
        if !pair_ok(pair[0], pair[1], days) {
            return false;
        }
    }
    true
}
