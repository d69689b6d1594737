// The slot table: its records, their kinds, and the tally of a span.
ghost use Rattle.std.specs.Prelude.{◌&&◌, ◌||◌, ◌≡◌, ◌+◌, ◌*◌, ◌^◌, ◌≤◌, eqb, length};
ghost use Rattle.base.specs.Lists.{any};
ghost use Rattle.rules.specs.Spans.{is_scaled};
ghost use Rattle.file.specs.Reader.{slot_at, scaled};
ghost use Rattle.rules.specs.Numbers.{most_slots};
ghost use Rattle.file.specs.Inner.Reading.{is_plain, is_kindless, tallied_with, tallied_in};

use crate::fields;

// A record of the slot table.
#[derive(Clone, Copy)]
pub struct SlotRecord {
    pub value: u32,
    pub letter: u8,
    pub method: u8,
}

pub fn slot_at(file: &[u8], i: usize) -> SlotRecord
    requires { 6 * (i + 1) ≤ length file.now }
    ensures { result ≡ slot_at file.now i }
{
    let p = 6 * i;
    SlotRecord {
        value: fields::number(file, p, 4) as u32,
        letter: file[p + 4],
        method: file[p + 5],
    }
}

// The record has this letter and this method, as one number.
pub fn is_form(slot: SlotRecord, letter: u8, method: u8) -> bool
    ensures { result ≡ (eqb slot.letter letter && eqb slot.method method) }
{
    slot.letter as u32 + 256 * slot.method as u32 == letter as u32 + 256 * method as u32
}

// (A,0): nearly every record of nearly every file.
pub fn is_plain(slot: SlotRecord) -> bool
    ensures { result ≡ is_plain slot }
{
    is_form(slot, b'A', 0)
}

pub fn is_scaled(method: u8) -> bool
    ensures { result ≡ is_scaled method }
{
    method == 18 || method == 19
}

// (A,0) or (F,5): of no kind.
fn is_kindless(slot: SlotRecord) -> bool
    ensures { result ≡ is_kindless slot }
{
    is_plain(slot) || is_form(slot, b'F', 5)
}

// One of the `k` slots from slot `a` is scaled.
#[tactic(auto, using(base::proofs::Sums::any_empty, base::proofs::Sums::any_on))]
pub fn has_scaled(file: &[u8], a: usize, k: usize) -> bool
    requires { 6 * (a + k) ≤ length file.now }
    ensures { result ≡ any (λ i. scaled (slot_at file.now i)) a k }
{
    for i in 0..k {
        let found = is_scaled(slot_at(file, a + i).method);
        if found {
            return true;
        }
    }
    false
}

// Which kinds of slots a span has, and the sum of its values.
#[derive(Clone, Copy)]
pub struct Tally {
    pub none: bool,
    pub scaled: bool,
    pub unscaled: bool,
    pub substituted: bool,
    pub sum: u64,
}

// The tally with one slot more: nearly every one is of no kind.
fn tally_with(found: Tally, slot: SlotRecord) -> Tally
    requires { found.sum ≤ 2 ^ 32 * most_slots }
    ensures { result ≡ tallied_with found slot }
{
    let sum = found.sum + slot.value as u64;
    if is_kindless(slot) {
        return Tally { sum, ..found };
    }
    let substituted = slot.letter == b'S';
    let scaled = is_scaled(slot.method);
    Tally {
        none: found.none | (slot.letter == b'N'),
        scaled: found.scaled | scaled,
        unscaled: found.unscaled | (substituted & !scaled),
        substituted: found.substituted | substituted,
        sum,
    }
}

// The tally of the `k` slots from slot `a`.
pub fn tally_of(file: &[u8], a: usize, k: usize) -> Tally
    requires { (6 * (a + k) ≤ length file.now) × (k ≤ most_slots) }
    ensures { result ≡ tallied_in file.now a k }
{
    let mut found = Tally {
        none: false,
        scaled: false,
        unscaled: false,
        substituted: false,
        sum: 0,
    };
    for i in 0..k {
        found = tally_with(found, slot_at(file, a + i));
    }
    found
}
