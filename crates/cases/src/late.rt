// How far one late figure reaches (02, W14): a book is published before and after its last row, a delivery that is stored, and the
// records that moved are told.
ghost use Rattle.std.specs.Prelude.{◌<◌};

use crate::books::Row;
use crate::{books, say};
use rules::Head;
use std::io;

// The numbers of those among the first `count` records, `width` bytes each, that moved.
fn moved(
    rt: &impl Print,
    label: &[u8],
    before: &[u8],
    after: &[u8],
    width: usize,
    count: usize,
) -> io::Result<()>
    requires { 0 < width }
{
    say::text(rt, label)?;
    let records = before.chunks(width).zip(after.chunks(width));
    for (i, (old, new)) in records.take(count).enumerate() {
        if old != new {
            say::field(rt, i as u64)?;
        }
    }
    Ok(())
}

// The book of the rows before the last.
fn publish_before(head: Head, rows: &[Row], file: &mut [u8]) {
    let Some((_, rows)) = rows.split_last() else {
        return;
    };
    let _ = books::publish_rows(head, rows, file);
}

// The book of the rows before the last, and of all: which of `count` parts of the slot table, and which spans, moved.
fn tell(
    rt: &impl Print,
    label: &[u8],
    parts: &[u8],
    head: Head,
    rows: &[Row],
    width: usize,
    count: usize,
    spans: usize,
) -> io::Result<()>
    requires { 0 < width }
{
    let mut before = [0u8; 106894];
    let mut after = [0u8; 106894];
    publish_before(head, rows, &mut before);
    let _ = books::publish_rows(head, rows, &mut after);
    let slots = books::slots_of(head);
    say::text(rt, label)?;
    moved(rt, parts, &before, &after, width, count)?;
    let table = 6 * slots;
    moved(rt, b" spans", &before[table..], &after[table..], 14, spans)?;
    say::text(rt, b"\n")
}

fn tell_slots(
    rt: &impl Print,
    label: &[u8],
    head: Head,
    rows: &[Row],
    spans: usize,
) -> io::Result<()> {
    tell(
        rt,
        label,
        b" slots",
        head,
        rows,
        6,
        books::slots_of(head),
        spans,
    )
}

// 1. Slot 10 gets another value, between good slots and outside spans.
fn itself(rt: &impl Print) -> io::Result<()> {
    let rows = [Row::Run(0, 48, 100, 0), Row::Delivery(10, 2, 90, 0)];
    tell_slots(
        rt,
        b"late at 10, itself:",
        books::head_of(1, 30, 1),
        &rows,
        0,
    )
}

// 2. Slot 10 gets the outage bit: its own outcome stays, and the gap that it touches is zeroed.
fn beside(rt: &impl Print) -> io::Result<()> {
    let rows = [
        Row::Run(0, 11, 100, 0),
        Row::Run(12, 48, 100, 0),
        Row::Delivery(10, 2, 100, 2),
    ];
    tell_slots(
        rt,
        b"late at 10, a run beside it:",
        books::head_of(1, 30, 1),
        &rows,
        0,
    )
}

// A book of 371 days from Sunday 2024-05-05.
fn year() -> Head {
    Head {
        year: 2024,
        month: 5,
        day: 5,
        days: 371,
        interval: 30,
        limit: books::limit_of(1),
        tolerance: 0,
    }
}

// 3. Slot 10 gets the outage bit and is no reference any more. No slot before the gaps from 17482 on, 364 days later, is one.
fn weeks_later(rt: &impl Print) -> io::Result<()> {
    let rows = [
        Row::Run(0, 11, 100, 0),
        Row::Run(11, 17481, 5, 2),
        Row::Run(17481, 17482, 5, 0),
        Row::Delivery(10, 2, 100, 2),
    ];
    tell_slots(rt, b"late at 10, 364 days later:", year(), &rows, 0)
}

// The same with the gaps from 17770 on, 370 days later on a holiday.
fn holiday_later(rt: &impl Print) -> io::Result<()> {
    let rows = [
        Row::Run(0, 11, 100, 0),
        Row::Run(11, 17769, 5, 2),
        Row::Run(17769, 17770, 5, 0),
        Row::Holiday(370),
        Row::Delivery(10, 2, 100, 2),
    ];
    tell_slots(
        rt,
        b"late at 10, a holiday 370 days later:",
        year(),
        &rows,
        0,
    )
}

// 4. Slot 10 lifts V above R: its span disagrees, and the gaps at 20 and 30 are no longer scaled.
fn in_span(rt: &impl Print) -> io::Result<()> {
    let rows = [
        Row::Run(0, 20, 1, 0),
        Row::Run(21, 30, 1, 0),
        Row::Run(31, 48, 1, 0),
        Row::Register(0, 1, 0, 0),
        Row::Register(1, 1, 60, 0),
        Row::Delivery(10, 2, 100, 0),
    ];
    tell_slots(
        rt,
        b"late at 10, its span:",
        books::head_of(1, 30, 1),
        &rows,
        1,
    )
}

// The month of docs/REACH.md, February 2024: of the run of five gaps around midnight after the 4th the first comes late, at 23:00.
// On the 11th, 20th and 25th the five half hours up to 23:30 are gaps, on the 9th, 10th and 14th the one at 12:00. The 20th is a holiday.
// The dial is read at the starts of the 9th, 12th, 15th and 18th.
fn february(rt: &impl Print) -> io::Result<()> {
    let rows = [
        Row::Run(0, 190, 100, 0),
        Row::Run(195, 408, 100, 0),
        Row::Run(409, 456, 100, 0),
        Row::Run(457, 522, 100, 0),
        Row::Run(527, 648, 100, 0),
        Row::Run(649, 954, 100, 0),
        Row::Run(959, 1194, 100, 0),
        Row::Run(1199, 1392, 100, 0),
        Row::Holiday(19),
        Row::Register(8, 1, 0, 0),
        Row::Register(11, 1, 14500, 0),
        Row::Register(14, 1, 20000, 0),
        Row::Register(17, 1, 34400, 0),
        Row::Delivery(190, 1, 300, 0),
    ];
    let head = Head {
        year: 2024,
        month: 2,
        day: 1,
        days: 29,
        interval: 30,
        limit: books::limit_of(1),
        tolerance: 0,
    };
    tell(
        rt,
        b"late on 4 February:",
        b" days",
        head,
        &rows,
        288,
        29,
        3,
    )
}

pub fn reaches(rt: &impl Print) -> io::Result<()> {
    itself(rt)?;
    beside(rt)?;
    weeks_later(rt)?;
    holiday_later(rt)?;
    in_span(rt)?;
    february(rt)
}
