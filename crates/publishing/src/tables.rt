// The slot table and the span table, in one pass over the slots.
ghost use Rattle.std.specs.Prelude.{true, ◌≡◌, ◌+◌, ◌*◌, ◌≤◌, length};
ghost use Rattle.rules.specs.declared.Head.{Head as DeclaredHead};
ghost use Rattle.rules.specs.Opening.{Cells as Held, slot_count};
ghost use Rattle.rules.specs.Spans.{outcomes};
ghost use Rattle.rules.specs.Lent.{slots_in, agreed_in, cells_in};
ghost use Rattle.rules.specs.Inner.Passes.{list_of};
ghost use Rattle.file.specs.Layout.{table, span_row};
ghost use Rattle.file.specs.Inner.Writing.{written};
ghost use Rattle.publishing.specs.Inner.Publishing.{totals_of, added_to, progress_at, buffer_at, Countable, Roomy, Next};
ghost use Rattle.publishing.specs.Inner.Publishing.{PutFrom, PutTo, Entering, PutInside, PutStretch};

use file::writer;
use rules::pass::Pass;
use rules::walk::Walk;
use rules::{
    Agreed, Cells, Head, Outcome, Quality, Slots, Span, filling, linear, opening, outage, pass,
    stretch, tests,
};

// The counts of each quality and the sum of the slots so far.
#[derive(Clone, Copy)]
pub struct Totals {
    pub actual: u32,
    pub substituted: u32,
    pub agreed: u32,
    pub none: u32,
    pub sum: u64,
}

// The pass before a slot, the spans written, and the totals.
#[derive(Clone, Copy)]
pub struct Progress {
    pub pass: Pass,
    pub spans: usize,
    pub totals: Totals,
}

// Where the records of direct slots end, whether outage zero applies to the last of them, and the totals with them.
#[derive(Clone, Copy)]
pub struct DirectPut {
    pub end: usize,
    pub outage: bool,
    pub totals: Totals,
}

// Before slot 0.
fn begin() -> Progress
    ensures { (h : DeclaredHead) (b : Held) → result ≡ progress_at h b 0 }
{
    let totals = Totals {
        actual: 0,
        substituted: 0,
        agreed: 0,
        none: 0,
        sum: 0,
    };
    Progress {
        pass: pass::first(),
        spans: 0,
        totals,
    }
}

fn add(totals: Totals, slot: Outcome) -> Totals
    requires { Countable totals }
    ensures { result ≡ added_to totals slot }
{
    let sum = totals.sum + (slot.value as u64);
    match slot.quality {
        Quality::A => Totals {
            actual: totals.actual + 1,
            sum,
            ..totals
        },
        Quality::S => Totals {
            substituted: totals.substituted + 1,
            sum,
            ..totals
        },
        Quality::F => Totals {
            agreed: totals.agreed + 1,
            sum,
            ..totals
        },
        Quality::N => Totals {
            none: totals.none + 1,
            sum,
            ..totals
        },
    }
}

// Writes the record of the span that begins at a slot, if one does; how many are written then.
fn put_begun(out: &mut [u8], at: usize, count: usize, begins: Option<Span>) -> usize
    requires { at + 14 * count + 14 * length (list_of begins) ≤ length out.old }
    ensures { (result ≡ count + length (list_of begins))
        × (out.new ≡ written out.old (at + 14 * count) (table (span_row true) (list_of begins))) }
{
    match begins {
        Some(span) => {
            writer::put_span(out, at + 14 * count, span);
            count + 1
        }
        None => count,
    }
}

// The records of the direct slots from slot `from` on, up to slot `to` at most.
fn put_direct(
    head: Head,
    slots: &Slots<'_>,
    agreed: &Agreed<'_>,
    out: &mut [u8],
    from: usize,
    to: usize,
    before: bool,
    so_far: Totals,
) -> DirectPut
    requires { let s = slots_in slots.now in
        PutFrom head s (agreed_in agreed.now) out.old from to before so_far }
    ensures { let s = slots_in slots.now in
        let a = agreed_in agreed.now in
        PutTo head s a out.old out.new from to so_far result }
{
    let mut outage = before;
    let mut totals = so_far;
    for at in from..to {
        if tests::is_good(head, slots, at) {
            let good = filling::delivered(slots.values[at]);
            writer::put_slot(out, 6 * at, good);
            outage = false;
            totals = add(totals, good);
        } else {
            if agreed.versions[at] == 0 {
                return DirectPut {
                    end: at,
                    outage,
                    totals,
                };
            }
            let settled = filling::by_agreement(agreed.values[at]);
            writer::put_slot(out, 6 * at, settled);
            outage = outage::outage_zero(slots.versions, slots.statuses, at, outage);
            totals = add(totals, settled);
        }
    }
    DirectPut {
        end: to,
        outage,
        totals,
    }
}

// The records of the slots of a stretch, from its first slot on.
fn put_inside(head: Head, cells: &Cells<'_>, out: &mut [u8], from: Progress) -> Progress
    requires { let b = cells_in cells.now in
        Entering head b out.old from }
    ensures { let b = cells_in cells.now in
        PutInside head b out.old out.new from result }
{
    let pass = from.pass;
    let walk = pass.walk;
    let mut at = walk.at;
    let mut outage = walk.outage;
    let mut line = walk.line;
    let mut stretch = pass.stretch;
    let mut totals = from.totals;
    let until = stretch.until;
    let slots = cells.slots;
    let agreed = cells.agreed;
    // no `for`: how far the slots are direct is found in each turn
    while at < until {
        let put = put_direct(head, &slots, &agreed, out, at, until, outage, totals);
        if at < put.end {
            outage = put.outage;
            line = linear::bare(0);
            totals = put.totals;
            at = put.end;
        } else {
            outage = outage::outage_zero(slots.versions, slots.statuses, at, outage);
            line = linear::line_unagreed(head, &slots, agreed.versions, at, outage, line);
            let shaped = filling::unscaled(head, &slots, cells.holidays, at, outage, line);
            let slot = shaped.outcome;
            let fitted = stretch::fit(slot, shaped.shape, stretch);
            let outcome = fitted.outcome;
            writer::put_slot(out, 6 * at, outcome);
            stretch = fitted.next;
            totals = add(totals, outcome);
            at += 1;
        }
    }
    let walk = Walk { at, outage, line };
    Progress {
        pass: Pass { walk, stretch },
        totals,
        ..from
    }
}

// The stretch that a slot lies in, from that slot on: the record of the span that begins there, and those of its slots.
fn put_stretch(
    head: Head,
    cells: &Cells<'_>,
    out: &mut [u8],
    table: usize,
    here: Progress,
) -> Progress
    requires { let b = cells_in cells.now in
        Next head b out.old table here }
    ensures { let b = cells_in cells.now in
        PutStretch head b out.old out.new here result }
{
    let walk = here.pass.walk;
    let entered = stretch::enter(head, cells, walk, here.pass.stretch);
    let spans = put_begun(out, table, here.spans, entered.begins);
    let pass = Pass {
        walk,
        stretch: entered.stretch,
    };
    let from = Progress {
        pass,
        spans,
        ..here
    };
    put_inside(head, cells, out, from)
}

// Both tables, the span table from byte `table` on; the totals of all slots.
pub fn put_tables(head: Head, cells: &Cells<'_>, out: &mut [u8], table: usize) -> Totals
    requires { let b = cells_in cells.now in
        Roomy head b out.old × (table ≡ 6 * slot_count head) }
    ensures { let b = cells_in cells.now in
        (result ≡ totals_of (outcomes head b)) × (out.new ≡ buffer_at head b out.old (slot_count head)) }
{
    let n = opening::slot_count(head);
    let mut here = begin();
    let mut i = 0;
    // no `for`: where a stretch ends is found in each turn
    while i < n {
        here = put_stretch(head, cells, out, table, here);
        i = here.pass.walk.at;
    }
    here.totals
}
