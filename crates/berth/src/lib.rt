// A berth on paper: a run of the book over a lossy radio (02, W12).
#![tactic(auto)]

pub mod generator;
mod refusing;
mod reporting;
mod sending;

ghost use Rattle.std.specs.Prelude.{true, ◌++◌, ◌≡◌, ◌≤◌, length, drop};
ghost use Rattle.rules.specs.Opening.{head_ok};
ghost use Rattle.book.specs.Cells.{book_fits};
ghost use Rattle.book.specs.Written.{written_book, SameBook};
ghost use Rattle.claim.specs.Claim.{left_by, plain_file};
ghost use Rattle.berth.specs.Run.{true_total, run_calls, report_of, simulate_answer, simulate_lists, simulate_bytes};
ghost use Rattle.berth.specs.Inner.Refusing.{file_size};

use base::Refusal;
use book::lent::{BookMut, ReadsMut, SlotsMut};
use rules::Head;

// That span's state, the published total minus the true total, and the true total, of which a reader may want the share.
#[derive(Clone, Copy)]
pub struct Report {
    pub state: u8,
    pub difference: i64,
    pub total: u64,
}

// Opens the lists and makes every call of the run; the true total.
fn make_calls(head: Head, seed: u32, loss: u32, book: &mut BookMut<'_>) -> u64
    requires { (head_ok head ≡ true) × (book_fits head (written_book book.old) ≡ true) }
    ensures told { (result ≡ true_total head seed loss)
        × (written_book book.new ≡ left_by head (run_calls head seed loss)) }
    ensures same { SameBook book.old book.new }
{
    let _ = book::open(head, book);
    let mut slots = SlotsMut {
        values: book.values,
        versions: book.versions,
        statuses: book.statuses,
    };
    let total = sending::send_all(head, seed, loss, &mut slots, book.counts);
    let mut reads = ReadsMut {
        readings: book.readings,
        read_versions: book.read_versions,
        widths: book.widths,
    };
    sending::read_dial(head, &mut reads, total);
    total
}

// The whole run, where nothing refuses it.
fn run(head: Head, seed: u32, loss: u32, book: &mut BookMut<'_>, out: &mut [u8]) -> Report
    requires { (head_ok head ≡ true)
        × (book_fits head (written_book book.old) ≡ true)
        × (file_size head ≤ length out.old) }
    ensures told { (result ≡ report_of head seed loss)
        × (written_book book.new ≡ left_by head (run_calls head seed loss))
        × (out.new
        ≡ plain_file head (run_calls head seed loss) ++ drop (length (plain_file head (run_calls head seed loss))) out.old) }
    ensures same { SameBook book.old book.new }
{
    let total = make_calls(head, seed, loss, book);
    let _ = publishing::publish(head, &book.as_book(), out);
    reporting::report(head, out, total)
}

// A run from a seed: the lists as its calls leave them, the file in the first bytes of `out`, and the report. A refusal changes nothing.
pub fn simulate(
    head: Head,
    seed: u32,
    loss: u32,
    book: &mut BookMut<'_>,
    out: &mut [u8],
) -> Result<Report, Refusal>
    ensures told { let before = written_book book.old in
        (result ≡ simulate_answer head seed loss before out.old)
        × (written_book book.new ≡ simulate_lists head seed loss before out.old)
        × (out.new ≡ simulate_bytes head seed loss before out.old) }
    ensures same { SameBook book.old book.new }
{
    refusing::refusal(head, seed, loss, &book.as_book(), out)?;
    Ok(run(head, seed, loss, book, out))
}
