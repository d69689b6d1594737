// A delivery past the rules from its input: its cells and its day's count (01, The three calls that fill it; 02, W6).
ghost use Rattle.std.specs.Prelude.{true, false, cond, ◌≡◌, ◌+◌, ◌/◌, eqb};
ghost use Rattle.rules.specs.Opening.{head_ok, slots_per_day};
ghost use Rattle.book.specs.Answers.{received_meant};
ghost use Rattle.book.specs.Filling.{is_full, against_delivery, slots_with, counts_with};
ghost use Rattle.book.specs.Written.{written_slots, SameSlots};
ghost use Rattle.book.specs.Inner.Lent.{Deliverable};

use crate::lent::SlotsMut;
use crate::{Filed, filing};
use base::Refusal;
use rules::{Head, opening};

// A first delivery finds n or more delivered in its day.
fn is_full(head: Head, version: u32, count: u16) -> bool
    requires { head_ok head ≡ true }
    ensures { result ≡ is_full head version count }
{
    if version != 0 {
        return false;
    }
    opening::slots_per_day(head) <= count as usize
}

// The count of a day behind a stored delivery to a slot with this version.
fn raised(head: Head, version: u32, count: u16) -> u16
    requires { (head_ok head ≡ true) × (is_full head version count ≡ false) }
    ensures { result ≡ cond (eqb version 0) (count + 1) count }
{
    if version == 0 {
        return count + 1;
    }
    count
}

pub fn file_delivery(
    head: Head,
    slots: &mut SlotsMut<'_>,
    counts: &mut [u16],
    slot: usize,
    version: u32,
    value: u32,
    status: u8,
) -> Result<Filed, Refusal>
    requires { Deliverable head (written_slots slots.old) counts.old slot }
    ensures told { let before = written_slots slots.old in
        let found = against_delivery head before counts.old slot version value status in
        (received_meant result ≡ found)
        × (written_slots slots.new ≡ slots_with found before slot version value status)
        × (counts.new ≡ counts_with found before.versions counts.old slot (slot / slots_per_day head)) }
    ensures same { SameSlots slots.old slots.new }
{
    let day = opening::day_of(head, slot);
    let old_version = slots.versions[slot];
    let count = counts[day];
    if is_full(head, old_version, count) {
        return Err(Refusal::ImpossibleCell);
    }
    let old_status = slots.statuses[slot];
    let found = filing::against_slot(
        old_version,
        slots.values[slot],
        old_status,
        version,
        value,
        status,
    );
    if filing::is_stored(found) {
        slots.values[slot] = value;
        slots.versions[slot] = version;
        slots.statuses[slot] = status;
        counts[day] = raised(head, old_version, count);
    }
    found
}
