// The slot that a day and a time of day name.
ghost use Rattle.std.specs.Prelude.{◌≡◌};
ghost use Rattle.explain.specs.Naming.{slot_named};

use rules::{Head, opening};

// A day number and a minute of the day.
#[derive(Clone, Copy)]
pub struct Moment {
    pub day: u32,
    pub minute: u32,
}

// The slot of a book that a moment lies in.
#[tactic(auto, using(rules::proofs::Bounds::bounded), unfolding(crate::specs::Naming::slot_named, rules::specs::Opening::slots_per_day))]
pub fn slot_at(head: Head, moment: Moment) -> Option<u32>
    ensures { result ≡ slot_named head moment }
{
    if !opening::head_ok(head) {
        return None;
    }
    let first = opening::first_day(head);
    if moment.day < first {
        return None;
    }
    let day = moment.day - first;
    if head.days <= day {
        return None;
    }
    if 1440 <= moment.minute {
        return None;
    }
    Some(day * (1440 / head.interval) + moment.minute / head.interval)
}
