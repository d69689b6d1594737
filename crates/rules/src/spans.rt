// The sums, the advance, the state and the scaling of a span (01, Spans).
ghost use Rattle.std.specs.Prelude.{◌≡◌, ◌+◌, ◌-◌, ◌^◌, ◌<◌, ◌≤◌};
ghost use Rattle.base.specs.Numbers.{dial_modulus};
ghost use Rattle.rules.specs.Opening.{slot_count};
ghost use Rattle.rules.specs.Spans.{is_s, advance, state_by, share};
ghost use Rattle.rules.specs.Lent.{slots_in, agreed_in};
ghost use Rattle.rules.specs.Inner.Lent.{Lent, Settled, Dialled, Widths};
ghost use Rattle.rules.specs.Inner.Walks.{walk_at};
ghost use Rattle.rules.specs.Numbers.{most_slots};
ghost use Rattle.rules.specs.Inner.Summaries.{summary_of, actual_added, added_to, compared_with, scaling_of, scaled_by, Scales};

use crate::range::Range;
use crate::walk::Walk;
use crate::{Agreed, Head, Outcome, Quality, Slots, direct, filling, linear, outage, range};
use base::DIAL_MODULUS;

// V, the sum and the number of the shapes, whether a slot is N, whether one is S.
#[derive(Clone, Copy)]
pub struct Summary {
    pub actual: u64,
    pub shapes: u64,
    pub count: u64,
    pub hole: bool,
    pub filled: bool,
}

// T, E, what is added to each e (1 where all are 0) and P. Where nothing is scaled, E is 0.
#[derive(Clone, Copy)]
pub struct Scaling {
    pub t: u64,
    pub whole: u64,
    pub extra: u64,
    pub passed: u64,
}

// Where the advance of a span lies, R and the state.
#[derive(Clone, Copy)]
pub struct Compared {
    pub range: Range,
    pub advance: u64,
    pub state: u8,
}

// A slot's new value, and the scaling one slot on.
#[derive(Clone, Copy)]
pub struct Scaled {
    pub value: u32,
    pub next: Scaling,
}

// One A or F slot more.
fn add_actual(sum: Summary, value: u64) -> Summary
    requires { sum.actual + value < 2 ^ 64 }
    ensures { result ≡ actual_added sum value }
{
    Summary {
        actual: sum.actual + value,
        ..sum
    }
}

// One slot more, of at most 115,200: an A or F value is at most 99,999,999 Wh, a shape 6,000,000, all shapes together 115,200,000,000.
fn add(sum: Summary, slot: Outcome, shape: u64) -> Summary
    requires { (sum.actual ≤ 11_519_999_884_800) × (sum.shapes ≤ 115_200_000_000) × (sum.count ≤ most_slots) × (shape ≤ 6_000_000) }
    ensures { result ≡ added_to sum slot shape }
{
    let value = slot.value as u64;
    match slot.quality {
        Quality::A => add_actual(sum, value),
        Quality::S => Summary {
            shapes: sum.shapes + shape,
            count: sum.count + 1,
            filled: true,
            ..sum
        },
        Quality::F => add_actual(sum, value),
        Quality::N => Summary { hole: true, ..sum },
    }
}

// The sums of `count` slots from the slot of `first`.
pub fn summarise(
    head: Head,
    slots: &Slots<'_>,
    holidays: &[u8],
    agreed: &Agreed<'_>,
    first: Walk,
    count: usize,
) -> Summary
    requires { let s = slots_in slots.now in
        Lent head s holidays.now
        × Settled head (agreed_in agreed.now)
        × (first.at + count ≤ slot_count head)
        × (first ≡ walk_at head s (agreed_in agreed.now).versions first.at) }
    ensures { let s = slots_in slots.now in
        let a = agreed_in agreed.now in
        result ≡ summary_of head s a holidays.now first.at count }
{
    let mut sum = Summary {
        actual: 0,
        shapes: 0,
        count: 0,
        hole: false,
        filled: false,
    };
    let start = first.at;
    let to = start + count;
    let mut outage = first.outage;
    let mut line = first.line;
    let mut k = 0;
    // no `for`: how far the slots are direct is found in each turn
    while k < count {
        let at = start + k;
        let run = direct::add_up(head, slots, agreed, at, to, outage);
        if at < run.end {
            outage = run.outage;
            line = linear::bare(0);
            sum = add_actual(sum, run.sum);
            k = run.end - start;
        } else {
            outage = outage::outage_zero(slots.versions, slots.statuses, at, outage);
            line = linear::line_unagreed(head, slots, agreed.versions, at, outage, line);
            let shaped = filling::unscaled(head, slots, holidays, at, outage, line);
            sum = add(sum, shaped.outcome, shaped.shape);
            k += 1;
        }
    }
    sum
}

// G, for a dial of eight digits.
fn advanced(earlier: u32, later: u32) -> u32
    requires { earlier < dial_modulus }
    ensures { result ≡ advance earlier later }
{
    let turn = DIAL_MODULUS as u64;
    (((later as u64) + turn - (earlier as u64)) % turn) as u32
}

// 0 agrees, 1 scaled, 2 open, 3 disagrees.
fn state_of(sum: Summary, range: Range, r: u64, tolerance: u64) -> u8
    ensures { result ≡ state_by sum.hole sum.filled range r sum.actual tolerance }
{
    if sum.hole {
        return 2;
    }
    if sum.filled {
        if sum.actual <= r {
            return 1;
        }
        return 3;
    }
    if range::is_near(range, sum.actual, tolerance) {
        return 0;
    }
    3
}

// The span between two boundaries, its readings compared with its sums.
pub fn compare(
    head: Head,
    readings: &[u32],
    widths: &[u16],
    first: usize,
    last: usize,
    sum: Summary,
) -> Compared
    requires { Dialled head readings.now
        × Widths head widths.now
        × (first ≤ head.days)
        × (last ≤ head.days)
        × (head.days ≤ 400) }
    ensures { result ≡ compared_with head readings.now widths.now first last sum }
{
    let advance = advanced(readings[first], readings[last]);
    let range = range::range_of(advance, widths[first], widths[last]);
    let r = range::least_in(range, sum.actual);
    Compared {
        range,
        advance: r,
        state: state_of(sum, range, r, head.tolerance as u64),
    }
}

// floor(t × c / e).
fn share_of(t: u64, c: u64, e: u64) -> u64
    requires { (t < dial_modulus) × (c ≤ 115_200_000_000) × (0 < e) }
    ensures { result ≡ share t c e }
{
    t * c / e
}

// The new value of a slot before which the running sum is `p`, and with which it is `c`.
fn new_value(t: u64, p: u64, c: u64, e: u64) -> u32
    requires { (t < dial_modulus) × (p ≤ c) × (c ≤ e) × (e ≤ 115_200_000_000) × (0 < e) }
    ensures { result ≡ share t c e - share t p e }
{
    (share_of(t, c, e) - share_of(t, p, e)) as u32
}

pub fn is_substituted(quality: Quality) -> bool
    ensures { result ≡ is_s quality }
{
    matches!(quality, Quality::S)
}

// The scaling at the first slot of a span.
pub fn scaling_of(sum: Summary, r: u64) -> Scaling
    requires { sum.actual ≤ r }
    ensures { result ≡ scaling_of sum r }
{
    if sum.shapes == 0 {
        return Scaling {
            t: r - sum.actual,
            whole: sum.count,
            extra: 1,
            passed: 0,
        };
    }
    Scaling {
        t: r - sum.actual,
        whole: sum.shapes,
        extra: 0,
        passed: 0,
    }
}

// An S slot of a scaled span, with this shape.
pub fn scale(shape: u64, by: Scaling) -> Scaled
    requires { Scales shape by }
    ensures { result ≡ scaled_by shape by }
{
    let e = shape + by.extra;
    let passed = by.passed + e;
    let value = new_value(by.t, by.passed, passed, by.whole);
    let next = Scaling { passed, ..by };
    Scaled { value, next }
}
