// Filling a slot that has a cause (01, Filling).
ghost use Rattle.std.specs.Prelude.{false, ◌≡◌, ◌+◌, ◌*◌, ◌<◌, ◌≤◌, take, length};
ghost use Rattle.base.specs.Lists.{sum_of};
ghost use Rattle.rules.specs.Opening.{slot_count};
ghost use Rattle.rules.specs.Tests.{good_at};
ghost use Rattle.rules.specs.Filling.{is_reference, references, mean_of, from_references, is_outage_zero, filled_at, shape_of, shape_at};
ghost use Rattle.rules.specs.References.{reference_days, in_four};
ghost use Rattle.rules.specs.Lent.{slots_in, agreed_in};
ghost use Rattle.rules.specs.Inner.Lent.{Lent, Settled};
ghost use Rattle.rules.specs.Inner.Walks.{actual_of, agreed_of, line_at, line_before, ruled_by, Drawn};

use crate::linear::StraightLine;
use crate::{Agreed, Head, Outcome, Quality, Slots, linear, opening, tests, weeks};

// Up to four values of the same position on earlier weeks, nearest first, and their days.
#[derive(Clone, Copy)]
pub struct References {
    pub days: [u32; 4],
    pub values: [u32; 4],
    pub count: usize,
}

// The mean of references rounded down, what their sum has beyond it, and their number.
#[derive(Clone, Copy)]
pub struct Mean {
    pub mean: u32,
    pub remainder: u32,
    pub number: u32,
}

// The outcome before scaling of a slot with a cause, and its shape.
#[derive(Clone, Copy)]
pub struct Shaped {
    pub outcome: Outcome,
    pub shape: u64,
}

// The same, and the slot's line.
#[derive(Clone, Copy)]
pub struct RuledSlot {
    pub outcome: Outcome,
    pub shape: u64,
    pub line: StraightLine,
}

// Slot `at` can be a reference.
fn is_reference(head: Head, slots: &Slots<'_>, holidays: &[u8], at: usize) -> bool
    requires { Lent head (slots_in slots.now) holidays.now × (at < slot_count head) }
    ensures { result ≡ is_reference head (slots_in slots.now) holidays.now at }
{
    if !tests::is_good(head, slots, at) {
        return false;
    }
    if tests::outage_bit(slots.statuses[at]) {
        return false;
    }
    holidays[opening::day_of(head, at)] == 0
}

// The references of slot `slot`: the search stops at the fourth.
pub fn find_references(head: Head, slots: &Slots<'_>, holidays: &[u8], slot: usize) -> References
    requires { Lent head (slots_in slots.now) holidays.now × (slot < slot_count head) }
    ensures { let s = slots_in slots.now in
        let xs = references head s holidays.now slot in
        (result.days ≡ in_four (reference_days head s holidays.now slot)) × (result.values ≡ in_four xs) × (result.count ≡ length xs) }
{
    let day = opening::day_with(head, slot);
    let week = 7 * day.slots;
    let mut found = [0u32; 4];
    let mut days = [0u32; 4];
    let mut count: usize = 0;
    let way = weeks::way_back(head, holidays, day.number);
    let begin = slot + week - way.first * day.slots;
    let passed = weeks::pass_gaps(slots.versions, begin, week, way.weeks);
    let mut at = passed.at;
    let mut left = passed.left;
    // the loop that 01 names
    'weeks: loop {
        if left == 0 {
            break 'weeks;
        }
        at -= week;
        left -= 1;
        if is_reference(head, slots, holidays, at) {
            found[count] = slots.values[at];
            days[count] = opening::day_of(head, at) as u32;
            count += 1;
            if count == 4 {
                break 'weeks;
            }
        }
    }
    References {
        days,
        values: found,
        count,
    }
}

// The mean of the references, with its remainder and their number.
pub fn mean_of(found: References) -> Mean
    requires { (1 ≤ found.count) × (found.count ≤ 4) }
    ensures { let xs = take found.count found.values in
        (result.mean ≡ mean_of xs)
        × (result.number ≡ found.count)
        × (result.mean * result.number + result.remainder ≡ sum_of xs)
        × (result.remainder < result.number) }
{
    let mut sum: u64 = 0;
    for value in &found.values[..found.count] {
        sum += *value as u64;
    }
    let number = found.count as u64;
    let rest = sum % number;
    Mean {
        mean: (sum / number) as u32,
        remainder: rest as u32,
        number: found.count as u32,
    }
}

// 12 × sum / number, which is whole: each number from 1 to 4 divides 12.
fn shape_of(mean: Mean) -> u64
    requires { (1 ≤ mean.number) × (mean.number ≤ 4) }
    ensures { result * mean.number ≡ 12 * (mean.mean * mean.number + mean.remainder) }
{
    let number = mean.number as u64;
    let sum = (mean.mean as u64) * number + (mean.remainder as u64);
    12 * sum / number
}

// A slot that is not S has no shape.
fn unshaped(outcome: Outcome) -> Shaped
    ensures { (result.outcome ≡ outcome) × (result.shape ≡ 0) }
{
    Shaped { outcome, shape: 0 }
}

// Filled from the same day of earlier weeks, or not at all.
fn same_day(head: Head, slots: &Slots<'_>, holidays: &[u8], at: usize) -> Shaped
    requires { Lent head (slots_in slots.now) holidays.now × (at < slot_count head) }
    ensures { let xs = references head (slots_in slots.now) holidays.now at in
        (result.outcome ≡ from_references xs) × (result.shape ≡ shape_of result.outcome xs) }
{
    let found = find_references(head, slots, holidays, at);
    if found.count == 0 {
        let none = Outcome {
            value: 0,
            quality: Quality::N,
            method: 0,
        };
        return unshaped(none);
    }
    let mean = mean_of(found);
    let outcome = Outcome {
        value: mean.mean,
        quality: Quality::S,
        method: 3,
    };
    Shaped {
        outcome,
        shape: shape_of(mean),
    }
}

// The outcome of a good slot.
pub fn delivered(value: u32) -> Outcome
    ensures { result ≡ actual_of value }
{
    Outcome {
        value,
        quality: Quality::A,
        method: 0,
    }
}

// The outcome of an agreed slot.
pub fn by_agreement(value: u32) -> Outcome
    ensures { result ≡ agreed_of value }
{
    Outcome {
        value,
        quality: Quality::F,
        method: 5,
    }
}

// The outcome before scaling of slot `at`, which has a cause and is not agreed, and its shape; `outage` says whether outage zero
// applies, `line` which line it lies on.
pub fn unscaled(
    head: Head,
    slots: &Slots<'_>,
    holidays: &[u8],
    at: usize,
    outage: bool,
    line: StraightLine,
) -> Shaped
    requires { Lent head (slots_in slots.now) holidays.now
        × (at < slot_count head)
        × (0 < line.length → Drawn line) }
    ensures { let xs = references head (slots_in slots.now) holidays.now at in
        (result.outcome ≡ ruled_by outage line xs) × (result.shape ≡ shape_of result.outcome xs) }
{
    if outage {
        let zero = Outcome {
            value: 0,
            quality: Quality::A,
            method: 1,
        };
        return unshaped(zero);
    }
    if 0 < line.length {
        let value = linear::line_value(line);
        let outcome = Outcome {
            value,
            quality: Quality::S,
            method: 2,
        };
        return Shaped {
            outcome,
            shape: 12 * (value as u64),
        };
    }
    same_day(head, slots, holidays, at)
}

// The outcome before scaling of slot `at`, which has a cause, its shape and its line; `before` is that of the slot before.
pub fn fill_cause(
    head: Head,
    slots: &Slots<'_>,
    holidays: &[u8],
    agreed: &Agreed<'_>,
    at: usize,
    outage: bool,
    before: StraightLine,
) -> RuledSlot
    requires { let s = slots_in slots.now in
        Lent head s holidays.now
        × Settled head (agreed_in agreed.now)
        × (at < slot_count head)
        × (good_at head s at ≡ false)
        × (outage ≡ is_outage_zero head s at)
        × (before ≡ line_before head s (agreed_in agreed.now).versions at) }
    ensures { let s = slots_in slots.now in
        let a = agreed_in agreed.now in
        (result.outcome ≡ filled_at head s a holidays.now at)
        × (result.shape ≡ shape_at head s a holidays.now at)
        × (result.line ≡ line_at head s a.versions at) }
{
    let line = linear::line_on(head, slots, agreed.versions, at, outage, before);
    if 0 < agreed.versions[at] {
        return RuledSlot {
            outcome: by_agreement(agreed.values[at]),
            shape: 0,
            line,
        };
    }
    let shaped = unscaled(head, slots, holidays, at, outage, line);
    RuledSlot {
        outcome: shaped.outcome,
        shape: shaped.shape,
        line,
    }
}
