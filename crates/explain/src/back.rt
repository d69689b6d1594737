// What a pass over the slots knows before a slot, found by looking back from it.
ghost use Rattle.std.specs.Prelude.{◌≡◌, ◌+◌, ◌<◌, ◌≤◌, length};
ghost use Rattle.rules.specs.Opening.{slot_count};
ghost use Rattle.rules.specs.Filling.{filled_at, shape_at};
ghost use Rattle.rules.specs.Lent.{slots_in, agreed_in};
ghost use Rattle.rules.specs.Inner.Lent.{Fitted, Lent, Settled};
ghost use Rattle.rules.specs.Inner.Walks.{walk_at};
ghost use Rattle.explain.specs.Inner.Looking.{Since};

use rules::walk::{Filled, Walk};
use rules::{Agreed, Head, Slots, linear, outage, tests, walk};

// The slot behind the last good slot before slot `at`, or slot 0.
fn since_good(head: Head, slots: &Slots<'_>, at: usize) -> usize
    requires { Fitted head (slots_in slots.now) × (at ≤ slot_count head) }
    ensures { Since head (slots_in slots.now) at result }
{
    for last in (0..at).rev() {
        if tests::is_good(head, slots, last) {
            return last + 1;
        }
    }
    0
}

// The pass before slot `at`: a good slot lies in no run, so only the slots behind the last one are passed.
pub fn fills_before(head: Head, slots: &Slots<'_>, agreed_versions: &[u32], at: usize) -> Walk
    requires { Fitted head (slots_in slots.now)
        × (length agreed_versions.now ≡ slot_count head)
        × (at < slot_count head) }
    ensures { result ≡ walk_at head (slots_in slots.now) agreed_versions.now at }
{
    let mut outage = false;
    let mut line = linear::bare(0);
    for k in since_good(head, slots, at)..at {
        outage = outage::outage_zero(slots.versions, slots.statuses, k, outage);
        line = linear::line_on(head, slots, agreed_versions, k, outage, line);
    }
    Walk { at, outage, line }
}

// Slot `at` filled, and the pass behind it.
#[tactic(auto, using(crate::proofs::Passing::walk_place, crate::proofs::Passing::walk_known))]
pub fn fill_slot(
    head: Head,
    slots: &Slots<'_>,
    holidays: &[u8],
    agreed: &Agreed<'_>,
    at: usize,
) -> Filled
    requires { Lent head (slots_in slots.now) holidays.now
        × Settled head (agreed_in agreed.now)
        × (at < slot_count head) }
    ensures { let s = slots_in slots.now in
        let a = agreed_in agreed.now in
        (result.outcome ≡ filled_at head s a holidays.now at)
        × (result.shape ≡ shape_at head s a holidays.now at)
        × (result.next ≡ walk_at head s a.versions (at + 1)) }
{
    let here = fills_before(head, slots, agreed.versions, at);
    walk::fill_at(head, slots, holidays, agreed, here)
}
