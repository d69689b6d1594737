// The tests of a slot (01, Tests of a slot).
ghost use Rattle.std.specs.Prelude.{◌≡◌, ◌<◌};
ghost use Rattle.rules.specs.Opening.{slot_count};
ghost use Rattle.rules.specs.Tests.{cause_of, good_at, outage_bit};
ghost use Rattle.rules.specs.Lent.{slots_in};
ghost use Rattle.rules.specs.Inner.Lent.{Fitted};

use crate::{Head, Slots};

// A test that applies to a slot.
#[derive(Clone, Copy)]
pub enum Cause {
    Gap,
    TimeChange,
    Partial,
    Demand,
}

// The first test that applies; none, where the slot is good.
pub fn cause_of(limit: u32, interval: u32, version: u32, value: u32, status: u8) -> Option<Cause>
    ensures { result ≡ cause_of limit interval version value status }
{
    if version == 0 {
        return Some(Cause::Gap);
    }
    if status % 2 == 1 {
        return Some(Cause::TimeChange);
    }
    if status / 4 % 2 == 1 {
        return Some(Cause::Partial);
    }
    if (limit as u64) * (interval as u64) < (value as u64) * 60 {
        return Some(Cause::Demand);
    }
    None
}

pub fn is_good(head: Head, slots: &Slots<'_>, at: usize) -> bool
    requires { Fitted head (slots_in slots.now) × (at < slot_count head) }
    ensures { result ≡ good_at head (slots_in slots.now) at }
{
    if slots.versions[at] == 0 {
        return false;
    }
    cause_of(
        head.limit,
        head.interval,
        slots.versions[at],
        slots.values[at],
        slots.statuses[at],
    )
    .is_none()
}

// The outage bit of a status.
pub fn outage_bit(status: u8) -> bool
    ensures { result ≡ outage_bit status }
{
    status / 2 % 2 == 1
}
