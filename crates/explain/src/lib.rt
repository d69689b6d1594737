// The way of one slot through the book: its cause, the rule that filled it, its span, its scaling and its outcome.
#![tactic(auto)]

mod back;
mod held;
pub mod naming;
mod told;

ghost use Rattle.std.specs.Prelude.{true, ◌≡◌, ◌<◌};
ghost use Rattle.rules.specs.Opening.{head_ok, slot_count};
ghost use Rattle.rules.specs.Lent.{cells_in};
ghost use Rattle.rules.specs.Inner.Lent.{Whole};
ghost use Rattle.book.specs.Cells.{book_fits};
ghost use Rattle.book.specs.Lent.{book_in};
ghost use Rattle.explain.specs.Explain.{explanation_of, explain_answer};

use base::Refusal;
use book::{Book, lengths, sound};
use rules::filling::References;
use rules::linear::StraightLine;
use rules::tests::Cause;
use rules::{Cells, Head, Outcome, opening, tests};

// The rule that applied: a good slot is delivered; the others stand in the order in which they are tried. `Nothing` is 01's own, None.
#[derive(Clone, Copy)]
pub enum Rule {
    Delivered,
    Agreed,
    OutageZero,
    Linear(StraightLine),
    SameDay(References),
    Nothing,
}

// The span that a slot lies in: its boundaries, lowest and highest advance, R, V and state.
#[derive(Clone, Copy)]
pub struct Spanned {
    pub first: u32,
    pub last: u32,
    pub lowest: u32,
    pub highest: u32,
    pub advance: u64,
    pub actual: u64,
    pub state: u8,
}

// T, E, P and C of a slot that is scaled.
#[derive(Clone, Copy)]
pub struct Shares {
    pub t: u64,
    pub whole: u64,
    pub passed: u64,
    pub reached: u64,
}

// The shares are those of a slot that is scaled itself.
#[derive(Clone, Copy)]
pub struct Explanation {
    pub cause: Option<Cause>,
    pub rule: Rule,
    pub filled: Outcome,
    pub span: Option<Spanned>,
    pub shares: Option<Shares>,
    pub outcome: Outcome,
}

// What is told of slot `slot` of a book that is not refused.
fn tell(head: Head, cells: &Cells<'_>, slot: usize) -> Explanation
    requires { Whole head (cells_in cells.now) × (slot < slot_count head) }
    ensures { result ≡ explanation_of head (cells_in cells.now) slot }
{
    let cause = tests::cause_of(
        head.limit,
        head.interval,
        cells.slots.versions[slot],
        cells.slots.values[slot],
        cells.slots.statuses[slot],
    );
    let filled = back::fill_slot(head, &cells.slots, cells.holidays, &cells.agreed, slot);
    let rule = told::rule_of(head, &cells.slots, cells.holidays, slot, filled);
    let held = held::hold(head, cells, slot);
    told::tell_with(cause, filled, rule, held)
}

// Explains a slot of a book whose lists fit.
#[tactic(auto, unfolding(crate::specs::Explain::explain_answer))]
fn explain_fitted(head: Head, book: &Book<'_>, slot: usize) -> Result<Explanation, Refusal>
    requires { (head_ok head ≡ true) × (book_fits head (book_in book.now) ≡ true) × (slot < slot_count head) }
    ensures { result ≡ explain_answer head (book_in book.now) slot }
{
    if !sound::book_ok(head, book) {
        return Err(Refusal::ImpossibleCell);
    }
    Ok(tell(head, &book.cells, slot))
}

// Explains slot `slot`: refused as publishing is, and for a slot that is none.
#[tactic(auto, unfolding(crate::specs::Explain::explain_answer))]
pub fn explain(head: Head, book: &Book<'_>, slot: u32) -> Result<Explanation, Refusal>
    ensures { result ≡ explain_answer head (book_in book.now) slot }
{
    if !opening::head_ok(head) {
        return Err(Refusal::OutsideBounds);
    }
    if !lengths::lists_fit(head, book) {
        return Err(Refusal::WrongLength);
    }
    if opening::slot_count(head) <= slot as usize {
        return Err(Refusal::NoPlace);
    }
    explain_fitted(head, book, slot as usize)
}
