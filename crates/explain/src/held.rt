// The span that a slot lies in, and how it is scaled before the slot (01, Spans).
ghost use Rattle.std.specs.Prelude.{None, Some, ◌≡◌, ◌+◌, ◌/◌, ◌<◌, ◌≤◌, length};
ghost use Rattle.std.proofs.Math.Option.{some};
ghost use Rattle.rules.specs.Opening.{slots_per_day, slot_count};
ghost use Rattle.rules.specs.Spans.{last_read};
ghost use Rattle.rules.specs.Lent.{slots_in, agreed_in, cells_in};
ghost use Rattle.rules.specs.Inner.Lent.{Lent, Settled, Dialled, Widths, Whole};
ghost use Rattle.rules.specs.Inner.Summaries.{summary_of};
ghost use Rattle.rules.specs.Inner.Stretches.{next_meant, span_stretch, stretch_at};
ghost use Rattle.explain.specs.Explain.{spanned_by, earlier, later};
ghost use Rattle.explain.specs.Inner.Holding.{unscaled, scaling_with, spanned_with, Between};

use crate::{Spanned, back};
use rules::spans::{Scaling, Summary};
use rules::{Agreed, Cells, Head, Slots, opening, readings, spans, stretch};

// Where nothing is scaled, E is 0.
#[derive(Clone, Copy)]
pub struct Held {
    pub span: Option<Spanned>,
    pub by: Scaling,
}

// The last boundary up to `day` that has a reading.
#[tactic(auto, using(crate::proofs::Holding::last_at, crate::proofs::Holding::last_on))]
fn last_read(read_versions: &[u32], day: usize) -> Option<usize>
    requires { day < length read_versions.now }
    ensures { next_meant result ≡ last_read read_versions.now day }
{
    for d in (0..day + 1).rev() {
        if read_versions[d] != 0 {
            return Some(d);
        }
    }
    None
}

// The sums of `count` slots from slot `start`.
#[tactic(auto, using(crate::proofs::Passing::walk_place, crate::proofs::Passing::walk_known))]
fn sums(
    head: Head,
    slots: &Slots<'_>,
    holidays: &[u8],
    agreed: &Agreed<'_>,
    start: usize,
    count: usize,
) -> Summary
    requires { Lent head (slots_in slots.now) holidays.now
        × Settled head (agreed_in agreed.now)
        × (start < slot_count head)
        × (start + count ≤ slot_count head) }
    ensures { result ≡ summary_of head (slots_in slots.now) (agreed_in agreed.now) holidays.now start count }
{
    let here = back::fills_before(head, slots, agreed.versions, start);
    spans::summarise(head, slots, holidays, agreed, here, count)
}

// The scaling of a span with this state, these sums and this R, where the slots before a slot have the sums `before`.
#[tactic(auto, unfolding(crate::specs::Inner::Holding::scaling_with, rules::specs::Inner::Summaries::scaling_of))]
fn scaling_with(state: u8, sum: Summary, before: Summary, r: u64) -> Scaling
    requires { state ≡ 1 → sum.actual ≤ r }
    ensures { result ≡ scaling_with state sum before r }
{
    if state != 1 {
        return stretch::unscaled_to(0).by;
    }
    let by = spans::scaling_of(sum, r);
    if sum.shapes == 0 {
        return Scaling {
            passed: before.count,
            ..by
        };
    }
    Scaling {
        passed: before.shapes,
        ..by
    }
}

// A span's figures, from its sums.
fn spanned(
    head: Head,
    readings: &[u32],
    widths: &[u16],
    first: usize,
    last: usize,
    sum: Summary,
) -> Spanned
    requires { Dialled head readings.now
        × Widths head widths.now
        × (first ≤ head.days)
        × (last ≤ head.days)
        × (head.days ≤ 400) }
    ensures { result ≡ spanned_with head readings.now widths.now first last sum }
{
    let found = spans::compare(head, readings, widths, first, last, sum);
    let range = found.range;
    Spanned {
        first: first as u32,
        last: last as u32,
        lowest: range.lowest,
        highest: range.highest,
        advance: found.advance,
        actual: sum.actual,
        state: found.state,
    }
}

// The span between two boundaries, before slot `slot` of it.
fn between(head: Head, cells: &Cells<'_>, slot: usize, first: usize, last: usize) -> Held
    requires { let b = cells_in cells.now in
        Lent head b.slots b.holidays
        × Dialled head b.readings
        × Settled head b.agreed
        × Widths head b.widths
        × Between head slot first last }
    ensures { let b = cells_in cells.now in
        (result.span ≡ spanned_by head b (some first) (some last)) × (result.by ≡ (span_stretch head b first last slot).by) }
{
    let day = opening::slots_per_day(head);
    let start = first * day;
    let count = (last - first) * day;
    let sum = sums(
        head,
        &cells.slots,
        cells.holidays,
        &cells.agreed,
        start,
        count,
    );
    let before = sums(
        head,
        &cells.slots,
        cells.holidays,
        &cells.agreed,
        start,
        slot - start,
    );
    let span = spanned(head, cells.readings, cells.widths, first, last, sum);
    Held {
        span: Some(span),
        by: scaling_with(span.state, sum, before, span.advance),
    }
}

// A slot that lies in no span.
fn outside() -> Held
    ensures { (result.span ≡ None) × (result.by ≡ unscaled) }
{
    Held {
        span: None,
        by: stretch::unscaled_to(0).by,
    }
}

// The span that slot `slot` lies in.
#[tactic(auto, using(rules::proofs::Bounds::bounded, rules::proofs::Bounds::day_below))]
pub fn hold(head: Head, cells: &Cells<'_>, slot: usize) -> Held
    requires { Whole head (cells_in cells.now) × (slot < slot_count head) }
    ensures { let b = cells_in cells.now in
        let d = slot / slots_per_day head in
        (result.span ≡ spanned_by head b (earlier b d) (later head b d))
        × (result.by ≡ (stretch_at head b slot).by) }
{
    let day = slot / opening::slots_per_day(head);
    let Some(first) = last_read(cells.read_versions, day) else {
        return outside();
    };
    let Some(last) = readings::next_read(cells.read_versions, day + 1) else {
        return outside();
    };
    between(head, cells, slot, first, last)
}
