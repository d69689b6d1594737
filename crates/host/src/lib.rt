// The calls of a book and of a file for hosts in C and Rust, which `sawmauve` exports: numbers, word lists and byte lists.
#![tactic(auto)]

pub mod chargers;
pub mod files;
pub mod limits;
pub mod nem12;
pub mod stays;
pub mod storage;

ghost use Rattle.std.specs.Prelude.{◌≡◌};
ghost use Rattle.rules.specs.Lent.{lent_slots, lent_agreed};
ghost use Rattle.book.specs.Answers.{received_meant, answer_code};
ghost use Rattle.book.specs.Opening.{open_answer, open_after};
ghost use Rattle.book.specs.Filling.{deliver_answer, deliver_after, counts_after, agree_answer, agree_after};
ghost use Rattle.book.specs.Filling.{holiday_answer, holiday_after, register_answer, register_after};
ghost use Rattle.book.specs.Lent.{lent_reads, lent_book};
ghost use Rattle.host.specs.Codes.{head_of};

use base::Refusal;
use book::lent::{AgreedMut, BookMut, ReadsMut, SlotsMut};
use book::{Filed, codes};
use rules::Head;

pub fn head_of(
    year: u32,
    month: u32,
    day: u32,
    days: u32,
    interval: u32,
    limit: u32,
    tolerance: u32,
) -> Head
    ensures { result ≡ head_of year month day days interval limit tolerance }
{
    Head {
        year,
        month,
        day,
        days,
        interval,
        limit,
        tolerance,
    }
}

fn filed_code(answer: Result<Filed, Refusal>) -> u32
    ensures { result ≡ answer_code (received_meant answer) }
{
    codes::code_of(answer) as u32
}

pub fn sawmauve_open<'a>(
    year: u32,
    month: u32,
    day: u32,
    days: u32,
    interval: u32,
    limit: u32,
    tolerance: u32,
    values: &'a mut [u32],
    versions: &'a mut [u32],
    statuses: &'a mut [u8],
    holidays: &'a mut [u8],
    readings: &'a mut [u32],
    read_versions: &'a mut [u32],
    agreed: &'a mut [u32],
    agreed_versions: &'a mut [u32],
    counts: &'a mut [u16],
    widths: &'a mut [u16],
) -> u32
    ensures { let head = head_of year month day days interval limit tolerance in
        let book = lent_book values.old versions.old statuses.old holidays.old readings.old read_versions.old
        agreed.old agreed_versions.old counts.old widths.old in
        (result ≡ answer_code (open_answer head book))
        × (lent_book values.new versions.new statuses.new holidays.new readings.new read_versions.new
        agreed.new agreed_versions.new counts.new widths.new
        ≡ open_after head book) }
{
    let head = head_of(year, month, day, days, interval, limit, tolerance);
    let mut book = BookMut {
        values,
        versions,
        statuses,
        holidays,
        readings,
        read_versions,
        agreed,
        agreed_versions,
        counts,
        widths,
    };
    base::code_of(book::open(head, &mut book))
}

pub fn sawmauve_deliver<'a>(
    year: u32,
    month: u32,
    day: u32,
    days: u32,
    interval: u32,
    limit: u32,
    tolerance: u32,
    values: &'a mut [u32],
    versions: &'a mut [u32],
    statuses: &'a mut [u8],
    counts: &mut [u16],
    slot: u32,
    version: u32,
    value: u32,
    status: u32,
) -> u32
    ensures { let head = head_of year month day days interval limit tolerance in
        let slots = lent_slots values.old versions.old statuses.old in
        (result ≡ answer_code (deliver_answer head slots counts.old slot version value status))
        × (lent_slots values.new versions.new statuses.new
        ≡ deliver_after head slots counts.old slot version value status)
        × (counts.new ≡ counts_after head slots counts.old slot version value status) }
{
    let head = head_of(year, month, day, days, interval, limit, tolerance);
    let mut slots = SlotsMut {
        values,
        versions,
        statuses,
    };
    filed_code(book::deliver(head, &mut slots, counts, slot, version, value, status))
}

pub fn sawmauve_agree<'a>(
    year: u32,
    month: u32,
    day: u32,
    days: u32,
    interval: u32,
    limit: u32,
    tolerance: u32,
    agreed: &'a mut [u32],
    agreed_versions: &'a mut [u32],
    slot: u32,
    version: u32,
    value: u32,
) -> u32
    ensures { let head = head_of year month day days interval limit tolerance in
        let lent = lent_agreed agreed.old agreed_versions.old in
        (result ≡ answer_code (agree_answer head lent slot version value))
        × (lent_agreed agreed.new agreed_versions.new
        ≡ agree_after head lent slot version value) }
{
    let head = head_of(year, month, day, days, interval, limit, tolerance);
    let mut lists = AgreedMut {
        values: agreed,
        versions: agreed_versions,
    };
    filed_code(book::agree(head, &mut lists, slot, version, value))
}

pub fn sawmauve_holiday(
    year: u32,
    month: u32,
    day: u32,
    days: u32,
    interval: u32,
    limit: u32,
    tolerance: u32,
    holidays: &mut [u8],
    at: u32,
) -> u32
    ensures { let head = head_of year month day days interval limit tolerance in
        (result ≡ answer_code (holiday_answer head holidays.old at))
        × (holidays.new ≡ holiday_after head holidays.old at) }
{
    let head = head_of(year, month, day, days, interval, limit, tolerance);
    filed_code(book::holiday(head, holidays, at))
}

pub fn sawmauve_register<'a>(
    year: u32,
    month: u32,
    day: u32,
    days: u32,
    interval: u32,
    limit: u32,
    tolerance: u32,
    readings: &'a mut [u32],
    read_versions: &'a mut [u32],
    widths: &'a mut [u16],
    boundary: u32,
    version: u32,
    reading: u32,
    width: u32,
) -> u32
    ensures { let head = head_of year month day days interval limit tolerance in
        let lent = lent_reads readings.old read_versions.old widths.old in
        (result ≡ answer_code (register_answer head lent boundary version reading width))
        × (lent_reads readings.new read_versions.new widths.new
        ≡ register_after head lent boundary version reading width) }
{
    let head = head_of(year, month, day, days, interval, limit, tolerance);
    let mut reads = ReadsMut {
        readings,
        read_versions,
        widths,
    };
    filed_code(book::register(head, &mut reads, boundary, version, reading, width))
}
