// A walk over the slots from slot 0 upward, which fills each and looks ahead once for each run of gaps, and of slots that a line may fill.
ghost use Rattle.std.specs.Prelude.{◌≡◌, ◌+◌, ◌<◌};
ghost use Rattle.rules.specs.Opening.{slot_count};
ghost use Rattle.rules.specs.Filling.{filled_at, shape_at};
ghost use Rattle.rules.specs.Lent.{slots_in, agreed_in};
ghost use Rattle.rules.specs.Inner.Lent.{Lent, Settled};
ghost use Rattle.rules.specs.Inner.Walks.{walk_at};

use crate::linear::StraightLine;
use crate::{Agreed, Head, Outcome, Slots, filling, linear, outage, tests};

// What is known at slot `at` of the slot before it: whether outage zero applies to it, and its line.
#[derive(Clone, Copy)]
pub struct Walk {
    pub at: usize,
    pub outage: bool,
    pub line: StraightLine,
}

// The outcome of a slot before scaling, its shape, and the walk one slot on.
#[derive(Clone, Copy)]
pub struct Filled {
    pub outcome: Outcome,
    pub shape: u64,
    pub next: Walk,
}

// One slot of the walk.
pub fn fill_at(
    head: Head,
    slots: &Slots<'_>,
    holidays: &[u8],
    agreed: &Agreed<'_>,
    walk: Walk,
) -> Filled
    requires { let s = slots_in slots.now in
        Lent head s holidays.now
        × Settled head (agreed_in agreed.now)
        × (walk.at < slot_count head)
        × (walk ≡ walk_at head s (agreed_in agreed.now).versions walk.at) }
    ensures { let s = slots_in slots.now in
        let a = agreed_in agreed.now in
        (result.outcome ≡ filled_at head s a holidays.now walk.at)
        × (result.shape ≡ shape_at head s a holidays.now walk.at)
        × (result.next ≡ walk_at head s a.versions (walk.at + 1)) }
{
    let at = walk.at;
    let on = at + 1;
    if tests::is_good(head, slots, at) {
        let next = Walk {
            at: on,
            outage: false,
            line: linear::bare(0),
        };
        return Filled {
            outcome: filling::delivered(slots.values[at]),
            shape: 0,
            next,
        };
    }
    let outage = outage::outage_zero(slots.versions, slots.statuses, at, walk.outage);
    let lined = filling::fill_cause(head, slots, holidays, agreed, at, outage, walk.line);
    let next = Walk {
        at: on,
        outage,
        line: lined.line,
    };
    Filled {
        outcome: lined.outcome,
        shape: lined.shape,
        next,
    }
}
