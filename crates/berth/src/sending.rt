// The slots of a run sent one after another, and the dial read (02, W12).
ghost use Rattle.std.specs.Prelude.{true, ◌≡◌, ◌%◌};
ghost use Rattle.base.specs.Numbers.{dial_modulus};
ghost use Rattle.rules.specs.Opening.{head_ok, slot_count};
ghost use Rattle.book.specs.Filling.{register_after};
ghost use Rattle.book.specs.Written.{written_reads, SameSlots, SameReads};
ghost use Rattle.berth.specs.Steps.{most_of};
ghost use Rattle.berth.specs.Run.{true_total};
ghost use Rattle.berth.specs.Inner.Sending.{written_sent, sent_one, sent_from};

use crate::generator::Berth;
use book::lent::{ReadsMut, SlotsMut};
use rules::{Head, opening};

// The most that a slot may hold: floor(limit × L / 60).
fn most_of(head: Head) -> u32
    requires { head_ok head ≡ true }
    ensures { result ≡ most_of head }
{
    head.limit * head.interval / 60
}

// A slot of which the berth has just made its step.
fn send(head: Head, slots: &mut SlotsMut<'_>, counts: &mut [u16], slot: u32, berth: Berth)
    ensures told { written_sent slots.new counts.new ≡ sent_one head (written_sent slots.old counts.old) slot berth }
    ensures same { SameSlots slots.old slots.new }
{
    if berth.lost {
        return;
    }
    let _ = book::deliver(head, slots, counts, slot, 1, berth.value, 0);
}

// Every slot in order; the true total.
pub fn send_all(
    head: Head,
    seed: u32,
    loss: u32,
    slots: &mut SlotsMut<'_>,
    counts: &mut [u16],
) -> u64
    requires { head_ok head ≡ true }
    ensures told { (result ≡ true_total head seed loss)
        × (written_sent slots.new counts.new ≡ sent_from head seed loss (written_sent slots.old counts.old) (slot_count head)) }
    ensures same { SameSlots slots.old slots.new }
{
    let count = opening::slot_count(head) as u32;
    let most = most_of(head);
    let mut berth = Berth::new(seed);
    let mut total: u64 = 0;
    for slot in 0..count {
        berth = berth.step(loss, most);
        send(head, slots, counts, slot, berth);
        total += berth.value as u64;
    }
    total
}

// The dial at boundaries 0 and D.
pub fn read_dial(head: Head, reads: &mut ReadsMut<'_>, total: u64)
    ensures told { written_reads reads.new
        ≡ register_after head (register_after head (written_reads reads.old) 0 1 0 0) head.days 1 (total % dial_modulus) 0 }
    ensures same { SameReads reads.old reads.new }
{
    let _ = book::register(head, reads, 0, 1, 0, 0);
    let reading = (total % 100_000_000) as u32;
    let _ = book::register(head, reads, head.days, 1, reading, 0);
}
