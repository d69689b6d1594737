// Direct slots, whose outcomes rest on their own cells alone: good ones, and agreed ones that have a cause (02, W1).
ghost use Rattle.std.specs.Prelude.{◌≡◌, ◌-◌, ◌*◌, ◌≤◌};
ghost use Rattle.base.specs.Lists.{sum};
ghost use Rattle.rules.specs.Lent.{slots_in, agreed_in};
ghost use Rattle.rules.specs.Inner.Walks.{direct_of, DirectFrom, DirectTo};

use crate::{Agreed, Head, Slots, outage, tests};

// Where the direct slots end, whether outage zero applies to the last of them, and their sum.
#[derive(Clone, Copy)]
pub struct Added {
    pub end: usize,
    pub outage: bool,
    pub sum: u64,
}

// The direct slots from slot `from` on, up to slot `to` at most; `before` says whether outage zero applies to the slot before them.
pub fn add_up(
    head: Head,
    slots: &Slots<'_>,
    agreed: &Agreed<'_>,
    from: usize,
    to: usize,
    before: bool,
) -> Added
    requires { DirectFrom head (slots_in slots.now) (agreed_in agreed.now) from to before }
    ensures { let s = slots_in slots.now in
        let a = agreed_in agreed.now in
        DirectTo head s a from to result.end result.outage
        × (result.sum ≡ sum (λ i. (direct_of head s a i).value) from (result.end - from))
        × (result.sum ≤ (result.end - from) * 4_294_967_295) }
{
    let mut sum: u64 = 0;
    let mut outage = before;
    for at in from..to {
        if tests::is_good(head, slots, at) {
            outage = false;
            sum += slots.values[at] as u64;
        } else {
            if agreed.versions[at] == 0 {
                return Added {
                    end: at,
                    outage,
                    sum,
                };
            }
            outage = outage::outage_zero(slots.versions, slots.statuses, at, outage);
            sum += agreed.values[at] as u64;
        }
    }
    Added {
        end: to,
        outage,
        sum,
    }
}
