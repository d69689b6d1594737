// Publishing: a book's outcomes written as a file (01, The published file).
#![tactic(auto)]

mod tables;

ghost use Rattle.std.specs.Prelude.{true, ◌++◌, ◌≡◌, ◌+◌, ◌*◌, ◌≤◌, length, drop};
ghost use Rattle.rules.specs.Opening.{head_ok, slot_count};
ghost use Rattle.rules.specs.Spans.{spans as spans_of};
ghost use Rattle.rules.specs.Lent.{cells_in};
ghost use Rattle.book.specs.Cells.{book_fits};
ghost use Rattle.book.specs.Lent.{book_in};
ghost use Rattle.file.specs.Layout.{file_of};
ghost use Rattle.publishing.specs.Publishing.{published, file_length, publish_answer, publish_after};
ghost use Rattle.publishing.specs.Inner.Publishing.{Sound, Roomy, Put, Left};

use base::Refusal;
use book::{Book, lengths, sound};
use file::{Figures, writer};
use rules::{Cells, Head, opening, readings};

// The whole file into the first bytes of `out`.
fn put_file(head: Head, cells: &Cells<'_>, out: &mut [u8], spans: usize)
    requires { let b = cells_in cells.now in
        Roomy head b out.old × (spans ≡ length (spans_of head b)) }
    ensures { let b = cells_in cells.now in
        out.new ≡ file_of (published head b) ++ drop (file_length head b) out.old }
{
    let table = 6 * opening::slot_count(head);
    let found = tables::put_tables(head, cells, out, table);
    let g = Figures {
        first: opening::first_day(head),
        days: head.days,
        interval: head.interval,
        spans: spans as u32,
        actual: found.actual,
        substituted: found.substituted + found.agreed,
        none: found.none,
        sum: found.sum,
        layout: 3,
    };
    writer::put_trailer(out, table + 14 * spans, g);
}

// The length of a file with so many spans.
fn length_of(head: Head, spans: usize) -> usize
    requires { (head_ok head ≡ true) × (spans ≤ 400) }
    ensures { result ≡ 6 * slot_count head + 14 * spans + 32 }
{
    6 * opening::slot_count(head) + 14 * spans + 32
}

// Writes the file of a book that is refused for a short buffer only.
fn put_sound(head: Head, cells: &Cells<'_>, out: &mut [u8]) -> Result<usize, Refusal>
    requires { Sound head (cells_in cells.now) }
    ensures { let b = cells_in cells.now in
        Put head b out.old result out.new }
{
    let spans = readings::span_count(cells.read_versions);
    let length = length_of(head, spans);
    if out.len() < length {
        return Err(Refusal::ShortBuffer);
    }
    put_file(head, cells, out, spans);
    Ok(length)
}

// Writes the file of a book whose lists fit.
fn put_fitted(head: Head, book: &Book<'_>, out: &mut [u8]) -> Result<usize, Refusal>
    requires { let b = book_in book.now in
        (head_ok head ≡ true) × (book_fits head b ≡ true) }
    ensures { let b = book_in book.now in
        Left head b out.old result out.new }
{
    if !sound::book_ok(head, book) {
        return Err(Refusal::ImpossibleCell);
    }
    put_sound(head, &book.cells, out)
}

// Writes the file of a book into the first bytes of `out`.
pub fn publish(head: Head, book: &Book<'_>, out: &mut [u8]) -> Result<usize, Refusal>
    ensures { let b = book_in book.now in
        (result ≡ publish_answer head b out.old)
        × (out.new ≡ publish_after head b out.old) }
{
    if !opening::head_ok(head) {
        return Err(Refusal::OutsideBounds);
    }
    if !lengths::lists_fit(head, book) {
        return Err(Refusal::WrongLength);
    }
    put_fitted(head, book, out)
}
