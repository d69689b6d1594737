// The slots' forms, counts and sum, in one pass over the table.
ghost use Rattle.std.specs.Prelude.{cond, true, ◌&&◌, ◌||◌, ◌≡◌, ◌*◌, ◌≤◌, eqb, leb, length};
ghost use Rattle.base.specs.Numbers.{eight_digits};
ghost use Rattle.rules.specs.Spans.{is_scaled};
ghost use Rattle.rules.specs.Numbers.{most_slots};
ghost use Rattle.file.specs.Inner.Reading.{is_plain, IsRest, Within, met_by, counted_with, counted_in};

use crate::slots;
use crate::slots::SlotRecord;

// Whether the records have their forms, but for the values of F, of which this is the highest; the counts of A, of S and F,
// of F alone, and of N slots, and the sum of all values.
#[derive(Clone, Copy)]
pub struct Counted {
    pub formed: bool,
    pub highest: u32,
    pub actual: usize,
    pub substituted: usize,
    pub agreed: usize,
    pub none: usize,
    pub sum: u64,
}

// The methods of S.
fn is_filling(method: u8) -> bool
    ensures { result ≡ (eqb method 2 || (eqb method 3 || is_scaled method)) }
{
    method == 2 || method == 3 || slots::is_scaled(method)
}

// (A,1) and (N,0) have value 0.
fn is_zero(slot: SlotRecord, letter: u8, method: u8) -> bool
    ensures { result ≡ (eqb slot.letter letter && eqb slot.method method && eqb slot.value 0) }
{
    slots::is_form(slot, letter, method) && slot.value == 0
}

fn with_plain(found: Counted, slot: SlotRecord) -> Counted
    requires { Within most_slots (met_by found) × (is_plain slot ≡ true) }
    ensures { met_by result ≡ counted_with (met_by found) slot }
{
    Counted {
        actual: found.actual + 1,
        sum: found.sum + slot.value as u64,
        ..found
    }
}

fn with_none(found: Counted, slot: SlotRecord) -> Counted
    requires { Within most_slots (met_by found) × (slot.letter ≡ 78) }
    ensures { met_by result ≡ counted_with (met_by found) slot }
{
    Counted {
        formed: found.formed && is_zero(slot, b'N', 0),
        none: found.none + 1,
        sum: found.sum + slot.value as u64,
        ..found
    }
}

fn with_substituted(found: Counted, slot: SlotRecord) -> Counted
    requires { Within most_slots (met_by found) × (slot.letter ≡ 83) }
    ensures { met_by result ≡ counted_with (met_by found) slot }
{
    Counted {
        formed: found.formed && is_filling(slot.method),
        substituted: found.substituted + 1,
        sum: found.sum + slot.value as u64,
        ..found
    }
}

// F counts with S and by itself.
fn with_agreed(found: Counted, slot: SlotRecord) -> Counted
    requires { Within most_slots (met_by found) × (slot.letter ≡ 70) }
    ensures { met_by result ≡ counted_with (met_by found) slot }
{
    Counted {
        formed: found.formed && slot.method == 5,
        highest: found.highest.max(slot.value),
        substituted: found.substituted + 1,
        agreed: found.agreed + 1,
        sum: found.sum + slot.value as u64,
        ..found
    }
}

// (A,1), or a record of no form.
fn with_rest(found: Counted, slot: SlotRecord) -> Counted
    requires { Within most_slots (met_by found) × IsRest slot }
    ensures { met_by result ≡ counted_with (met_by found) slot }
{
    Counted {
        formed: found.formed && is_zero(slot, b'A', 1),
        actual: found.actual + (slot.letter == b'A') as usize,
        sum: found.sum + slot.value as u64,
        ..found
    }
}

// The totals with one slot more.
fn with_slot(found: Counted, slot: SlotRecord) -> Counted
    requires { Within most_slots (met_by found) }
    ensures { met_by result ≡ counted_with (met_by found) slot }
{
    if slots::is_plain(slot) {
        return with_plain(found, slot);
    }
    if slot.letter == b'N' {
        return with_none(found, slot);
    }
    if slot.letter == b'S' {
        return with_substituted(found, slot);
    }
    if slot.letter == b'F' {
        return with_agreed(found, slot);
    }
    with_rest(found, slot)
}

// The totals of the first `k` slots.
pub fn totals(file: &[u8], k: usize) -> Counted
    requires { (6 * k ≤ length file.now) × (k ≤ most_slots) }
    ensures { met_by result ≡ counted_in file.now k }
{
    let mut found = Counted {
        formed: true,
        highest: 0,
        actual: 0,
        substituted: 0,
        agreed: 0,
        none: 0,
        sum: 0,
    };
    for i in 0..k {
        found = with_slot(found, slots::slot_at(file, i));
    }
    found
}

// Each record has one of the forms.
pub fn forms_ok(found: Counted) -> bool
    ensures { result ≡ (met_by found).formed }
{
    found.formed && found.highest <= base::EIGHT_DIGITS
}
