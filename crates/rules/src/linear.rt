// A run of slots that a straight line may fill (02, W2).
ghost use Rattle.std.specs.Prelude.{true, false, ◌≡◌, ◌+◌, ◌<◌, length};
ghost use Rattle.rules.specs.Opening.{slot_count};
ghost use Rattle.rules.specs.Tests.{good_at};
ghost use Rattle.rules.specs.Filling.{is_outage_zero, is_agreed, in_run, run_before, floor_over, line_value};
ghost use Rattle.rules.specs.Lent.{slots_in};
ghost use Rattle.rules.specs.Inner.Lent.{Fitted};
ghost use Rattle.rules.specs.Inner.Walks.{bare_line, line_at, line_before, length_within, Drawn};

use crate::{Head, MOST_MINUTES, Slots, outage, tests};

// A slot's place j in its run and, where the line fills the run, its length g and the values l and r beside it; a slot in no run
// has place 0.
#[derive(Clone, Copy)]
pub struct StraightLine {
    pub place: u32,
    pub length: u32,
    pub left: u32,
    pub right: u32,
}

// The j-th slot of a run that no line fills; 0 where there is no run.
pub fn bare(place: u32) -> StraightLine
    ensures { result ≡ bare_line place }
{
    StraightLine {
        place,
        length: 0,
        left: 0,
        right: 0,
    }
}

// z / m, rounded towards the lower whole number: `/` rounds towards zero.
fn floor_over(z: i64, m: u32) -> i64
    requires { 0 < m }
    ensures { result ≡ floor_over z m }
{
    let d = m as i64;
    let q = z / d;
    if z % d < 0 {
        return q - 1;
    }
    q
}

// l + (r − l) × j / (g + 1).
pub fn line_value(line: StraightLine) -> u32
    requires { Drawn line }
    ensures { result ≡ line_value line.left line.right line.place line.length }
{
    let left = line.left as i64;
    let rise = (line.right as i64) - left;
    let parts = line.length + 1;
    (left + floor_over(rise * (line.place as i64), parts)) as u32
}

// The slots of the run that begins at slot `at`, looked for up to two hours on; 0 where no good slot follows it there.
fn length_within(head: Head, slots: &Slots<'_>, agreed_versions: &[u32], at: usize) -> usize
    requires { let s = slots_in slots.now in
        Fitted head s
        × (length agreed_versions.now ≡ slot_count head)
        × (at < slot_count head)
        × (in_run head s agreed_versions.now at ≡ true) }
    ensures { let s = slots_in slots.now in
        result ≡ length_within head s agreed_versions.now at }
{
    let most = (MOST_MINUTES / head.interval) as usize;
    for k in 1..=most {
        let next = at + k;
        if slots.values.len() <= next {
            return 0;
        }
        if tests::is_good(head, slots, next) {
            return k;
        }
        if 0 < agreed_versions[next] {
            return 0;
        }
        // the slot before lies in the run, so it is not zeroed
        if outage::outage_zero(slots.versions, slots.statuses, next, false) {
            return 0;
        }
    }
    0
}

// The line at the first slot of a run.
fn begin(head: Head, slots: &Slots<'_>, agreed_versions: &[u32], at: usize) -> StraightLine
    requires { let s = slots_in slots.now in
        Fitted head s
        × (length agreed_versions.now ≡ slot_count head)
        × (at < slot_count head)
        × (in_run head s agreed_versions.now at ≡ true)
        × (run_before head s agreed_versions.now at ≡ 0) }
    ensures { let s = slots_in slots.now in
        result ≡ line_at head s agreed_versions.now at }
{
    if at < 1 {
        return bare(1);
    }
    let last = at - 1;
    if !tests::is_good(head, slots, last) {
        return bare(1);
    }
    let length = length_within(head, slots, agreed_versions, at);
    if length == 0 {
        return bare(1);
    }
    let after = at + length;
    StraightLine {
        place: 1,
        length: length as u32,
        left: slots.values[last],
        right: slots.values[after],
    }
}

// The line at slot `at`, which has a cause and is not agreed. `before` is that of the slot before; `outage` says whether outage zero
// applies.
pub fn line_unagreed(
    head: Head,
    slots: &Slots<'_>,
    agreed_versions: &[u32],
    at: usize,
    outage: bool,
    before: StraightLine,
) -> StraightLine
    requires { let s = slots_in slots.now in
        Fitted head s
        × (length agreed_versions.now ≡ slot_count head)
        × (at < slot_count head)
        × (good_at head s at ≡ false)
        × (is_agreed agreed_versions.now at ≡ false)
        × (outage ≡ is_outage_zero head s at)
        × (before ≡ line_before head s agreed_versions.now at) }
    ensures { let s = slots_in slots.now in
        result ≡ line_at head s agreed_versions.now at }
{
    if outage {
        return bare(0);
    }
    if before.place == 0 {
        return begin(head, slots, agreed_versions, at);
    }
    StraightLine {
        place: before.place + 1,
        ..before
    }
}

// The line at slot `at`, which has a cause.
pub fn line_on(
    head: Head,
    slots: &Slots<'_>,
    agreed_versions: &[u32],
    at: usize,
    outage: bool,
    before: StraightLine,
) -> StraightLine
    requires { let s = slots_in slots.now in
        Fitted head s
        × (length agreed_versions.now ≡ slot_count head)
        × (at < slot_count head)
        × (good_at head s at ≡ false)
        × (outage ≡ is_outage_zero head s at)
        × (before ≡ line_before head s agreed_versions.now at) }
    ensures { let s = slots_in slots.now in
        result ≡ line_at head s agreed_versions.now at }
{
    if 0 < agreed_versions[at] {
        return bare(0);
    }
    line_unagreed(head, slots, agreed_versions, at, outage, before)
}
