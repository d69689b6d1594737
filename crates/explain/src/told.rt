// What is told of a slot: the rule that applied, its line, its shares and its outcome.
ghost use Rattle.std.specs.Prelude.{◌≡◌, ◌<◌};
ghost use Rattle.rules.specs.Opening.{slot_count};
ghost use Rattle.rules.specs.Lent.{slots_in};
ghost use Rattle.rules.specs.Inner.Lent.{Lent};
ghost use Rattle.rules.specs.Inner.Stretches.{Scalable};
ghost use Rattle.explain.specs.Explain.{found_of};
ghost use Rattle.explain.specs.Inner.Holding.{shares_with};
ghost use Rattle.explain.specs.Inner.Telling.{rule_of, scaled_to, told_with};

use crate::held::Held;
use crate::{Explanation, Rule, Shares};
use rules::spans::Scaling;
use rules::stretch::Stretch;
use rules::tests::Cause;
use rules::walk::Filled;
use rules::{Head, Quality, Slots, filling, spans, stretch};

// The rule that filled a slot, before scaling, with its line or its references.
#[tactic(auto, unfolding(crate::specs::Inner::Telling::rule_of, crate::specs::Explain::found_of))]
pub fn rule_of(head: Head, slots: &Slots<'_>, holidays: &[u8], slot: usize, filled: Filled) -> Rule
    requires { Lent head (slots_in slots.now) holidays.now × (slot < slot_count head) }
    ensures { result ≡ rule_of filled.outcome filled.next.line (found_of head (slots_in slots.now) holidays.now slot) }
{
    let outcome = filled.outcome;
    match outcome.method {
        1 => Rule::OutageZero,
        2 => Rule::Linear(filled.next.line),
        3 => Rule::SameDay(filling::find_references(head, slots, holidays, slot)),
        5 => Rule::Agreed,
        _ => match outcome.quality {
            Quality::N => Rule::Nothing,
            _ => Rule::Delivered,
        },
    }
}

// The shares of a slot of this quality: with an E above 0 its span is scaled.
#[tactic(auto, unfolding(crate::specs::Inner::Holding::shares_with))]
fn shares_by(quality: Quality, by: Scaling, reached: u64) -> Option<Shares>
    ensures { result ≡ shares_with quality by reached }
{
    if !spans::is_substituted(quality) {
        return None;
    }
    if by.whole == 0 {
        return None;
    }
    Some(Shares {
        t: by.t,
        whole: by.whole,
        passed: by.passed,
        reached,
    })
}

// A filled slot in its span.
#[tactic(auto, unfolding(crate::specs::Inner::Telling::told_with))]
pub fn tell_with(cause: Option<Cause>, filled: Filled, rule: Rule, held: Held) -> Explanation
    requires { Scalable filled.outcome filled.shape (scaled_to held.by) }
    ensures { result ≡ told_with cause filled rule held }
{
    let slot = filled.outcome;
    let by = held.by;
    let fitting = stretch::fit(slot, filled.shape, Stretch { until: 0, by });
    Explanation {
        cause,
        rule,
        filled: slot,
        span: held.span,
        shares: shares_by(slot.quality, by, fitting.next.by.passed),
        outcome: fitting.outcome,
    }
}
