// The span that a slot lies in, or the stretch outside spans (01, Spans).
ghost use Rattle.std.specs.Prelude.{None, ◌≡◌, ◌≤◌};
ghost use Rattle.rules.specs.Spans.{span_of};
ghost use Rattle.rules.specs.Lent.{slots_in, agreed_in, cells_in};
ghost use Rattle.rules.specs.Inner.Lent.{Lent, Settled, Dialled, Widths, Whole};
ghost use Rattle.rules.specs.Inner.Stretches.{unscaled_to, span_stretch, stretch_by, stretch_from, stretch_at, begins_with, begins_at};
ghost use Rattle.rules.specs.Inner.Stretches.{fit_outcome, fit_next, Scalable, Starts, Before};

use crate::spans::{Scaling, Summary};
use crate::walk::Walk;
use crate::{Cells, Head, Outcome, Quality, Span, opening, readings, spans};

// Where the stretch ends, and how it is scaled.
#[derive(Clone, Copy)]
pub struct Stretch {
    pub until: usize,
    pub by: Scaling,
}

// A span's outcome, and the span before its first slot.
#[derive(Clone, Copy)]
pub struct Met {
    pub span: Span,
    pub stretch: Stretch,
}

// The span that begins at a slot, and the stretch that the slot lies in.
#[derive(Clone, Copy)]
pub struct Entered {
    pub begins: Option<Span>,
    pub stretch: Stretch,
}

// A slot's outcome, and the stretch one slot on.
#[derive(Clone, Copy)]
pub struct InStretch {
    pub outcome: Outcome,
    pub next: Stretch,
}

// Nothing is scaled up to slot `until`.
pub fn unscaled_to(until: usize) -> Stretch
    ensures { result ≡ unscaled_to until }
{
    let by = Scaling {
        t: 0,
        whole: 0,
        extra: 0,
        passed: 0,
    };
    Stretch { until, by }
}

fn stretch_by(until: usize, state: u8, sum: Summary, r: u64) -> Stretch
    requires { state ≡ 1 → sum.actual ≤ r }
    ensures { result ≡ stretch_by until state sum r }
{
    if state != 1 {
        return unscaled_to(until);
    }
    Stretch {
        until,
        by: spans::scaling_of(sum, r),
    }
}

// The span between two boundaries, where the pass stands at its first slot.
fn meet(head: Head, cells: &Cells<'_>, walk: Walk, first: usize, last: usize) -> Met
    requires { let b = cells_in cells.now in
        Lent head b.slots b.holidays
        × Dialled head b.readings
        × Settled head b.agreed
        × Starts head b.slots b.agreed.versions walk first last
        × Widths head b.widths }
    ensures { let b = cells_in cells.now in
        (result.span ≡ span_of head b first last) × (result.stretch ≡ span_stretch head b first last walk.at) }
{
    let day = opening::slots_per_day(head);
    let sum = spans::summarise(
        head,
        &cells.slots,
        cells.holidays,
        &cells.agreed,
        walk,
        (last - first) * day,
    );
    let found = spans::compare(head, cells.readings, cells.widths, first, last, sum);
    let range = found.range;
    let span = Span {
        first: first as u32,
        last: last as u32,
        lowest: range.lowest,
        highest: range.highest,
        state: found.state,
    };
    Met {
        span,
        stretch: stretch_by(last * day, found.state, sum, found.advance),
    }
}

// No span begins at the slot.
fn no_span(stretch: Stretch) -> Entered
    ensures { (result.begins ≡ None) × (result.stretch ≡ stretch) }
{
    Entered {
        begins: None,
        stretch,
    }
}

// The stretch that begins at boundary `day`, where a pass stands, and ends at boundary `last`.
fn reach(head: Head, cells: &Cells<'_>, walk: Walk, day: usize, last: usize) -> Entered
    requires { let b = cells_in cells.now in
        Whole head b × Starts head b.slots b.agreed.versions walk day last }
    ensures { let b = cells_in cells.now in
        (result.begins ≡ begins_with head b day last) × (result.stretch ≡ stretch_from head b day last walk.at) }
{
    if cells.read_versions[day] == 0 {
        return no_span(unscaled_to(last * opening::slots_per_day(head)));
    }
    let met = meet(head, cells, walk, day, last);
    Entered {
        begins: Some(met.span),
        stretch: met.stretch,
    }
}

// The stretch that a pass's slot lies in. `carried` is that of the slot before.
pub fn enter(head: Head, cells: &Cells<'_>, walk: Walk, carried: Stretch) -> Entered
    requires { let b = cells_in cells.now in
        Whole head b × Before head b walk carried }
    ensures { let b = cells_in cells.now in
        (result.begins ≡ begins_at head b walk.at) × (result.stretch ≡ stretch_at head b walk.at) }
{
    let at = walk.at;
    if at != carried.until {
        return no_span(carried);
    }
    let day = at / opening::slots_per_day(head);
    match readings::next_read(cells.read_versions, day + 1) {
        Some(last) => reach(head, cells, walk, day, last),
        None => no_span(unscaled_to(opening::slot_count(head))),
    }
}

// A slot's outcome in the stretch that it lies in, and the stretch one slot on.
pub fn fit(slot: Outcome, shape: u64, here: Stretch) -> InStretch
    requires { Scalable slot shape here }
    ensures { (result.outcome ≡ fit_outcome slot shape here) × (result.next ≡ fit_next slot shape here) }
{
    let by = here.by;
    if by.whole == 0 {
        return InStretch {
            outcome: slot,
            next: here,
        };
    }
    if !spans::is_substituted(slot.quality) {
        return InStretch {
            outcome: slot,
            next: here,
        };
    }
    let scaled = spans::scale(shape, by);
    let outcome = Outcome {
        value: scaled.value,
        quality: Quality::S,
        method: slot.method + 16,
    };
    let next = Stretch {
        by: scaled.next,
        ..here
    };
    InStretch { outcome, next }
}
