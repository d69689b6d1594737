// The pass over the slots from slot 0 upward.
ghost use Rattle.std.specs.Prelude.{◌≡◌};
ghost use Rattle.rules.specs.declared.Head.{Head};
ghost use Rattle.rules.specs.Opening.{Cells};
ghost use Rattle.rules.specs.Inner.Passes.{pass_at};

use crate::stretch::Stretch;
use crate::walk::Walk;
use crate::{linear, stretch};

// What is known before a slot: of the runs that the slot before it lies in, and of its stretch.
#[derive(Clone, Copy)]
pub struct Pass {
    pub walk: Walk,
    pub stretch: Stretch,
}

// A pass before slot 0.
pub fn first() -> Pass
    ensures { (h : Head) (b : Cells) → result ≡ pass_at h b 0 }
{
    let walk = Walk {
        at: 0,
        outage: false,
        line: linear::bare(0),
    };
    Pass {
        walk,
        stretch: stretch::unscaled_to(0),
    }
}
