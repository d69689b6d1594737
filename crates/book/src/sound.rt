// All cells of a book looked at for one that no calls could leave, and its counts (01, Numbers of a refusal, 11; 02, W1, W6 and W10).
ghost use Rattle.std.specs.Prelude.{true, cond, ◌≡◌, ◌+◌, ◌≤◌, ltb, length, get_or};
ghost use Rattle.base.specs.Lists.{sum, any};
ghost use Rattle.rules.specs.Opening.{head_ok, slot_count};
ghost use Rattle.rules.specs.Lent.{slots_in, agreed_in, cells_in};
ghost use Rattle.book.specs.Cells.{slot_fault, agreed_fault, slot_fault_at, day_fault_at, read_fault_at, agreed_fault_at, count_fault_at};
ghost use Rattle.book.specs.Cells.{reads_of, cells_fit, cells_ok, book_fits, book_ok};
ghost use Rattle.book.specs.Lent.{book_in};

use crate::{Book, cells};
use base::EIGHT_DIGITS;
use rules::{Agreed, Cells, Head, Slots, opening};

// The tests of cells.rt with no branch, so that several places are tested at once.
fn slot_fault(version: u32, value: u32, status: u8) -> bool
    ensures { result ≡ slot_fault version value status }
{
    (7 < status) | ((version == 0) & ((value != 0) | (status != 0)))
}

fn agreed_fault(version: u32, value: u32) -> bool
    ensures { result ≡ agreed_fault version value }
{
    (EIGHT_DIGITS < value) | ((version == 0) & (value != 0))
}

fn bad_slot(slots: &Slots<'_>) -> bool
    requires { let s = slots_in slots.now in (length s.versions ≡ length s.values) × (length s.statuses ≡ length s.values) }
    ensures { let s = slots_in slots.now in result ≡ any (slot_fault_at s) 0 (length s.values) }
{
    let mut bad = false;
    for i in 0..slots.values.len() {
        bad = bad | slot_fault(slots.versions[i], slots.values[i], slots.statuses[i]);
    }
    bad
}

fn bad_day(holidays: &[u8]) -> bool
    ensures { result ≡ any (day_fault_at holidays.now) 0 (length holidays.now) }
{
    for day in holidays {
        if cells::day_fault(*day) {
            return true;
        }
    }
    false
}

fn bad_read(cells: &Cells<'_>) -> bool
    requires { let r = reads_of (cells_in cells.now) in
        (length r.read_versions ≡ length r.readings) × (length r.widths ≡ length r.readings) }
    ensures { let r = reads_of (cells_in cells.now) in result ≡ any (read_fault_at r) 0 (length r.readings) }
{
    for i in 0..cells.readings.len() {
        if cells::read_fault(cells.read_versions[i], cells.readings[i], cells.widths[i]) {
            return true;
        }
    }
    false
}

fn bad_agreed(agreed: &Agreed<'_>) -> bool
    requires { let a = agreed_in agreed.now in length a.versions ≡ length a.values }
    ensures { let a = agreed_in agreed.now in result ≡ any (agreed_fault_at a) 0 (length a.values) }
{
    let mut bad = false;
    for i in 0..agreed.values.len() {
        bad = bad | agreed_fault(agreed.versions[i], agreed.values[i]);
    }
    bad
}

fn cells_ok(head: Head, cells: &Cells<'_>) -> bool
    requires { cells_fit head (cells_in cells.now) ≡ true }
    ensures { result ≡ cells_ok head (cells_in cells.now) }
{
    if bad_slot(&cells.slots) {
        return false;
    }
    if bad_day(cells.holidays) {
        return false;
    }
    if bad_read(cells) {
        return false;
    }
    !bad_agreed(&cells.agreed)
}

// How many of the `count` slots from slot `first` are delivered: of a day, 288 at most.
fn delivered(versions: &[u32], first: usize, count: usize) -> u32
    requires { (first + count ≤ length versions.now) × (count ≤ 288) }
    ensures { result ≡ sum (λ i. cond (ltb 0 (get_or versions.now i 0)) 1 0) first count }
{
    let mut found: u32 = 0;
    for k in 0..count {
        if 0 < versions[first + k] {
            found += 1;
        }
    }
    found
}

// A day's count differs from the number of its delivered slots.
fn bad_count(head: Head, versions: &[u32], counts: &[u16]) -> bool
    requires { (head_ok head ≡ true) × (length versions.now ≡ slot_count head) × (length counts.now ≡ head.days) }
    ensures { result ≡ any (count_fault_at head versions.now counts.now) 0 (length counts.now) }
{
    for day in 0..counts.len() {
        let n = opening::slots_per_day(head);
        let count = counts[day] as u32;
        if count != delivered(versions, day * n, n) {
            return true;
        }
    }
    false
}

pub fn book_ok(head: Head, book: &Book<'_>) -> bool
    requires { (head_ok head ≡ true) × (book_fits head (book_in book.now) ≡ true) }
    ensures { result ≡ book_ok head (book_in book.now) }
{
    if !cells_ok(head, &book.cells) {
        return false;
    }
    !bad_count(head, book.cells.slots.versions, book.counts)
}
