// The calls that open and fill a book (01, Opening; The three calls that fill it; 02, W1, W6 and W10).
#![tactic(auto)]

pub mod calls;
pub mod cells;
pub mod codes;
mod deliveries;
mod filing;
mod heads;
pub mod lengths;
pub mod lent;
mod numbers;
mod registers;
pub mod sound;
mod versions;

ghost use Rattle.std.specs.Prelude.{◌≡◌};
ghost use Rattle.book.specs.Answers.{opened_meant, received_meant};
ghost use Rattle.book.specs.Opening.{open_answer, open_after};
ghost use Rattle.book.specs.Filling.{deliver_answer, deliver_after, counts_after, holiday_answer, holiday_after};
ghost use Rattle.book.specs.Filling.{register_answer, register_after, agree_answer, agree_after};
ghost use Rattle.book.specs.Lent.{lent_book, book_in};
ghost use Rattle.book.specs.Written.{written_slots, written_reads, written_agreed, written_book};
ghost use Rattle.book.specs.Written.{SameSlots, SameReads, SameAgreed, SameBook};

use base::Refusal;
use lent::{AgreedMut, BookMut, ReadsMut, SlotsMut};
use rules::{Agreed, Cells, Head, Slots, opening};

// What an accepted filling call answers.
#[derive(Clone, Copy, PartialEq, Eq)]
pub enum Filed {
    Stored,
    Late,
    Repeat,
}

// The ten lent lists of a book.
#[derive(Clone, Copy)]
pub struct Book<'a> {
    pub cells: Cells<'a>,
    pub counts: &'a [u16],
}

impl<'a> Book<'a> {
    // in the order of an opening's arguments
    pub fn of(
        values: &'a [u32],
        versions: &'a [u32],
        statuses: &'a [u8],
        holidays: &'a [u8],
        readings: &'a [u32],
        read_versions: &'a [u32],
        agreed: &'a [u32],
        agreed_versions: &'a [u32],
        counts: &'a [u16],
        widths: &'a [u16],
    ) -> Book<'a>
        ensures { book_in result ≡ lent_book values.now versions.now statuses.now holidays.now readings.now read_versions.now
            agreed.now agreed_versions.now counts.now widths.now }
    {
        let slots = Slots {
            values,
            versions,
            statuses,
        };
        let agreed = Agreed {
            values: agreed,
            versions: agreed_versions,
        };
        let cells = Cells {
            slots,
            holidays,
            readings,
            read_versions,
            agreed,
            widths,
        };
        Book { cells, counts }
    }
}

pub fn open(head: Head, book: &mut BookMut<'_>) -> Result<(), Refusal>
    ensures told { let before = written_book book.old in
        (opened_meant result ≡ open_answer head before) × (written_book book.new ≡ open_after head before) }
    ensures same { SameBook book.old book.new }
{
    if !opening::head_ok(head) {
        return Err(Refusal::OutsideBounds);
    }
    let fit = lengths::lists_fit(head, &book.as_book());
    if !fit {
        return Err(Refusal::WrongLength);
    }
    book.values.fill(0);
    book.versions.fill(0);
    book.statuses.fill(0);
    book.holidays.fill(0);
    book.readings.fill(0);
    book.read_versions.fill(0);
    book.agreed.fill(0);
    book.agreed_versions.fill(0);
    book.counts.fill(0);
    book.widths.fill(0);
    Ok(())
}

pub fn deliver(
    head: Head,
    slots: &mut SlotsMut<'_>,
    counts: &mut [u16],
    slot: u32,
    version: u32,
    value: u32,
    status: u32,
) -> Result<Filed, Refusal>
    ensures told { let before = written_slots slots.old in
        (received_meant result ≡ deliver_answer head before counts.old slot version value status)
        × (written_slots slots.new ≡ deliver_after head before counts.old slot version value status)
        × (counts.new ≡ counts_after head before counts.old slot version value status) }
    ensures same { SameSlots slots.old slots.new }
{
    if !heads::head_ok(head) {
        return Err(Refusal::OutsideBounds);
    }
    if !lengths::delivery_fits(
        head,
        slots.values.len(),
        slots.versions.len(),
        slots.statuses.len(),
        counts.len(),
    ) {
        return Err(Refusal::WrongLength);
    }
    let at = slot as usize;
    if opening::slot_count(head) <= at {
        return Err(Refusal::NoPlace);
    }
    if version == 0 {
        return Err(Refusal::VersionZero);
    }
    if 7 < status {
        return Err(Refusal::StatusOver);
    }
    deliveries::file_delivery(head, slots, counts, at, version, value, status as u8)
}

pub fn holiday(head: Head, holidays: &mut [u8], day: u32) -> Result<Filed, Refusal>
    ensures { (received_meant result ≡ holiday_answer head holidays.old day)
        × (holidays.new ≡ holiday_after head holidays.old day) }
{
    if !opening::head_ok(head) {
        return Err(Refusal::OutsideBounds);
    }
    if !lengths::days_fit(head, holidays.len()) {
        return Err(Refusal::WrongLength);
    }
    if head.days <= day {
        return Err(Refusal::NoPlace);
    }
    let at = day as usize;
    let found = filing::against_day(holidays[at]);
    if filing::is_stored(found) {
        holidays[at] = 1;
    }
    found
}

pub fn register(
    head: Head,
    reads: &mut ReadsMut<'_>,
    boundary: u32,
    version: u32,
    reading: u32,
    width: u32,
) -> Result<Filed, Refusal>
    ensures told { let before = written_reads reads.old in
        (received_meant result ≡ register_answer head before boundary version reading width)
        × (written_reads reads.new ≡ register_after head before boundary version reading width) }
    ensures same { SameReads reads.old reads.new }
{
    if !opening::head_ok(head) {
        return Err(Refusal::OutsideBounds);
    }
    if !lengths::reads_fit(
        head,
        reads.readings.len(),
        reads.read_versions.len(),
        reads.widths.len(),
    ) {
        return Err(Refusal::WrongLength);
    }
    registers::file_register(reads, boundary, version, reading, width)
}

pub fn agree(
    head: Head,
    agreed: &mut AgreedMut<'_>,
    slot: u32,
    version: u32,
    value: u32,
) -> Result<Filed, Refusal>
    ensures told { let before = written_agreed agreed.old in
        (received_meant result ≡ agree_answer head before slot version value)
        × (written_agreed agreed.new ≡ agree_after head before slot version value) }
    ensures same { SameAgreed agreed.old agreed.new }
{
    if !opening::head_ok(head) {
        return Err(Refusal::OutsideBounds);
    }
    if !lengths::agreed_fit(head, agreed.values.len(), agreed.versions.len()) {
        return Err(Refusal::WrongLength);
    }
    numbers::file_number(agreed, slot, version, value)
}
