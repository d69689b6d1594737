// What a run is refused for, found before anything is written (02, W12).
ghost use Rattle.std.specs.Prelude.{true, [], ◌∷◌, ◌≡◌, ltb, eqb, length};
ghost use Rattle.base.specs.Refusals.{tested};
ghost use Rattle.base.specs.Refusals.Rule.{rule};
ghost use Rattle.base.specs.declared.Refusal.TheVariants.{ShortBuffer, SeedZero, LossOver};
ghost use Rattle.rules.specs.Opening.{head_ok};
ghost use Rattle.book.specs.Cells.{book_fits};
ghost use Rattle.book.specs.Lent.{book_in};
ghost use Rattle.berth.specs.Run.{run_rules};
ghost use Rattle.berth.specs.Inner.Refusing.{file_size};

use base::Refusal;
use book::{Book, lengths};
use rules::{Head, opening};

// The length of the file of a run.
fn file_size(head: Head) -> usize
    requires { head_ok head ≡ true }
    ensures { result ≡ file_size head }
{
    6 * opening::slot_count(head) + 14 + 32
}

// 7, 20 or 21.
fn refusal_past_lengths(head: Head, seed: u32, loss: u32, room: usize) -> Result<(), Refusal>
    requires { head_ok head ≡ true }
    ensures { result
        ≡ tested (rule ShortBuffer (ltb room (file_size head)) ∷ rule SeedZero (eqb seed 0) ∷ rule LossOver (ltb 1000 loss) ∷ []) }
{
    if room < file_size(head) {
        return Err(Refusal::ShortBuffer);
    }
    if seed == 0 {
        return Err(Refusal::SeedZero);
    }
    if 1000 < loss {
        return Err(Refusal::LossOver);
    }
    Ok(())
}

// The lowest number that applies.
pub fn refusal(head: Head, seed: u32, loss: u32, book: &Book<'_>, out: &[u8]) -> Result<(), Refusal>
    ensures { let b = book_in book.now in
        result ≡ tested (run_rules head seed loss (book_fits head b) (length out.now)) }
{
    if !opening::head_ok(head) {
        return Err(Refusal::OutsideBounds);
    }
    if !lengths::lists_fit(head, book) {
        return Err(Refusal::WrongLength);
    }
    refusal_past_lengths(head, seed, loss, out.len())
}
