// Small books: opened, filled by rows, published.
ghost use Rattle.std.specs.Prelude.{◌≤◌};

use base::Refusal;
use book::lent::{AgreedMut, BookMut, ReadsMut, SlotsMut};
use rules::{Head, limits};
use std::num::wrapping_add_u32;

// The limit of a kind in the table of 01's two kinds.
pub fn limit_of(kind: u32) -> u32 {
    let table = [40000, 70000];
    limits::load(&table, kind).unwrap_or(0)
}

// A book of tolerance 0 that begins on 2024-05-01.
pub fn head_of(days: u32, interval: u32, kind: u32) -> Head {
    Head {
        year: 2024,
        month: 5,
        day: 1,
        days,
        interval,
        limit: limit_of(kind),
        tolerance: 0,
    }
}

// The four sizes of book in use: a day of five minutes, 371 and 29 days of half hours, a day of half hours.
pub fn slots_of(head: Head) -> usize
    ensures { result ≤ 17808 }
{
    if head.interval == 5 {
        return 288;
    }
    if head.days == 371 {
        return 17808;
    }
    if head.days == 29 {
        return 1392;
    }
    48
}

fn days_of(head: Head) -> usize
    ensures { result ≤ 371 }
{
    if head.days == 371 {
        return 371;
    }
    if head.days == 29 {
        return 29;
    }
    1
}

// What is put into a book.
#[derive(Clone, Copy)]
pub enum Row {
    // first slot, the one behind the last, value, status
    Run(u32, u32, u32, u32),
    // slot, version, value, status
    Delivery(u32, u32, u32, u32),
    // day
    Holiday(u32),
    // boundary, version, reading, width
    Register(u32, u32, u32, u32),
    // slot, version, value
    Agreed(u32, u32, u32),
}

// The same delivery to each slot from `first` up to `end`.
#[derive(Clone, Copy)]
struct Run {
    first: u32,
    end: u32,
    version: u32,
    value: u32,
    status: u32,
}

fn run_of(row: Row) -> Option<Run> {
    match row {
        Row::Run(first, end, value, status) => Some(Run {
            first,
            end,
            version: 1,
            value,
            status,
        }),
        Row::Delivery(slot, version, value, status) => Some(Run {
            first: slot,
            end: wrapping_add_u32(slot, 1),
            version,
            value,
            status,
        }),
        _ => None,
    }
}

fn deliver_run(head: Head, slots: &mut SlotsMut<'_>, counts: &mut [u16], run: Run) {
    for slot in run.first..run.end {
        let _ = book::deliver(
            head,
            slots,
            counts,
            slot,
            run.version,
            run.value,
            run.status,
        );
    }
}

// Calls of different kinds touch different lists, so each kind is filled by itself.
fn fill_slots(head: Head, slots: &mut SlotsMut<'_>, counts: &mut [u16], rows: &[Row]) {
    for row in rows {
        if let Some(run) = run_of(*row) {
            deliver_run(head, slots, counts, run);
        }
    }
}

fn fill_holidays(head: Head, holidays: &mut [u8], rows: &[Row]) {
    for row in rows {
        if let Row::Holiday(day) = *row {
            let _ = book::holiday(head, holidays, day);
        }
    }
}

fn fill_registers(head: Head, reads: &mut ReadsMut<'_>, rows: &[Row]) {
    for row in rows {
        if let Row::Register(boundary, version, reading, width) = *row {
            let _ = book::register(head, reads, boundary, version, reading, width);
        }
    }
}

fn fill_agreed(head: Head, agreed: &mut AgreedMut<'_>, rows: &[Row]) {
    for row in rows {
        if let Row::Agreed(slot, version, value) = *row {
            let _ = book::agree(head, agreed, slot, version, value);
        }
    }
}

// What opening refuses publishing refuses too, with the same number, and each call between them changes nothing.
fn publish_lent(
    head: Head,
    book: &mut BookMut<'_>,
    rows: &[Row],
    file: &mut [u8],
) -> Result<usize, Refusal> {
    let _ = book::open(head, book);
    let mut slots = SlotsMut {
        values: book.values,
        versions: book.versions,
        statuses: book.statuses,
    };
    fill_slots(head, &mut slots, book.counts, rows);
    fill_holidays(head, book.holidays, rows);
    let mut reads = ReadsMut {
        readings: book.readings,
        read_versions: book.read_versions,
        widths: book.widths,
    };
    fill_registers(head, &mut reads, rows);
    let mut agreed = AgreedMut {
        values: book.agreed,
        versions: book.agreed_versions,
    };
    fill_agreed(head, &mut agreed, rows);
    publishing::publish(head, &book.as_book(), file)
}

// Publishes the book of a list of rows into `file`.
pub fn publish_rows(head: Head, rows: &[Row], file: &mut [u8]) -> Result<usize, Refusal> {
    let mut values = [0u32; 17808];
    let mut versions = [0u32; 17808];
    let mut statuses = [0u8; 17808];
    let mut holidays = [0u8; 371];
    let mut readings = [0u32; 372];
    let mut read_versions = [0u32; 372];
    let mut agreed = [0u32; 17808];
    let mut agreed_versions = [0u32; 17808];
    let mut counts = [0u16; 371];
    let mut widths = [0u16; 372];
    let n = slots_of(head);
    let d = days_of(head);
    let mut book = BookMut {
        values: &mut values[..n],
        versions: &mut versions[..n],
        statuses: &mut statuses[..n],
        holidays: &mut holidays[..d],
        readings: &mut readings[..d + 1],
        read_versions: &mut read_versions[..d + 1],
        agreed: &mut agreed[..n],
        agreed_versions: &mut agreed_versions[..n],
        counts: &mut counts[..d],
        widths: &mut widths[..d + 1],
    };
    publish_lent(head, &mut book, rows, file)
}

// Four deliveries of e with a gap between each two, then `rest`, so that V is 100; the dial goes from 0 to 110.
pub fn scaled_rows(e: u32, rest: u32) -> [Row; 8] {
    [
        Row::Run(0, 1, e, 0),
        Row::Run(2, 3, e, 0),
        Row::Run(4, 5, e, 0),
        Row::Run(6, 7, e, 0),
        Row::Run(7, 8, rest, 0),
        Row::Run(8, 48, 0, 0),
        Row::Register(0, 1, 0, 0),
        Row::Register(1, 1, 110, 0),
    ]
}

// A delivery of 40 with the outage bit, a gap agreed at 600, a delivery of 50 agreed at 700, then zeros; the dial goes from 0 to 690.
pub fn agreed_rows() -> [Row; 7] {
    [
        Row::Run(0, 1, 40, 2),
        Row::Run(2, 3, 50, 0),
        Row::Run(3, 48, 0, 0),
        Row::Agreed(1, 1, 600),
        Row::Agreed(2, 1, 700),
        Row::Register(0, 1, 0, 0),
        Row::Register(1, 1, 690, 0),
    ]
}
