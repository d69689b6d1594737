// Cases that are told by a whole file: its line, its trailer, a span, its sum, its first day.
use crate::books::Row;
use crate::{books, say};
use base::Refusal;
use rules::Head;
use std::io;

// Every slot but 10 delivered as 100.
pub fn whole(rt: &impl Print) -> io::Result<()> {
    let rows = [Row::Run(0, 10, 100, 0), Row::Run(11, 48, 100, 0)];
    let mut file = [0u8; 320];
    let mut text = [0u8; 160];
    let _ = books::publish_rows(books::head_of(1, 30, 1), &rows, &mut file);
    let n = line::line(&file, &mut text);
    say::text(rt, &text[..n])?;
    trailer(rt, &file[288..])
}

// The 32 bytes after 48 records.
fn trailer(rt: &impl Print, bytes: &[u8]) -> io::Result<()> {
    say::text(rt, b"0x")?;
    for (k, byte) in bytes.iter().enumerate() {
        if 0 < k {
            say::text(rt, b" ")?;
        }
        say::hex(rt, *byte)?;
    }
    say::text(rt, b"\n")
}

// The day's 25 Wh agree with the advance of a dial that passes zero: lowest and highest advance and the state of the only span.
pub fn dial(rt: &impl Print) -> io::Result<()> {
    let rows = [
        Row::Run(0, 1, 25, 0),
        Row::Run(1, 48, 0, 0),
        Row::Register(0, 1, 99999990, 0),
        Row::Register(1, 1, 15, 0),
    ];
    let mut file = [0u8; 334];
    let _ = books::publish_rows(books::head_of(1, 30, 1), &rows, &mut file);
    say::text(rt, b"dial 99999990 then 15:")?;
    span(rt, &file)
}

// A day of 25 Wh between two dials, each a reading and its width.
fn fogged_day(rt: &impl Print, first: [u32; 2], last: [u32; 2]) -> io::Result<()> {
    let rows = [
        Row::Run(0, 1, 25, 0),
        Row::Run(1, 48, 0, 0),
        Row::Register(0, 1, first[0], first[1]),
        Row::Register(1, 1, last[0], last[1]),
    ];
    let mut file = [0u8; 334];
    let _ = books::publish_rows(books::head_of(1, 30, 1), &rows, &mut file);
    span(rt, &file)
}

// V in the range, above a range that wraps, and below one.
pub fn fogged(rt: &impl Print) -> io::Result<()> {
    say::text(rt, b"dial 0 and 25, widths 50 and 10:")?;
    fogged_day(rt, [0, 50], [25, 10])?;
    say::text(rt, b"dial 0 and 99999990, widths 0 and 15:")?;
    fogged_day(rt, [0, 0], [99999990, 15])?;
    say::text(rt, b"dial 0 and 40, widths 0 and 10:")?;
    fogged_day(rt, [0, 0], [40, 10])
}

// The only span, after 48 records.
fn span(rt: &impl Print, file: &[u8]) -> io::Result<()> {
    say::text(rt, b" R")?;
    say::field(rt, say::word_at(file, 292))?;
    say::text(rt, b" to")?;
    say::field(rt, say::word_at(file, 296))?;
    say::text(rt, b" state")?;
    say::field(rt, say::byte_at(file, 288, 12) as u64)?;
    say::text(rt, b"\n")
}

// The agreed slot counts in V, so the day agrees with its dial; the file has layout 3 all the same.
pub fn agreed(rt: &impl Print) -> io::Result<()> {
    let rows = books::agreed_rows();
    let mut file = [0u8; 334];
    let _ = books::publish_rows(books::head_of(1, 30, 1), &rows, &mut file);
    say::text(rt, b"a file with an agreed slot: layout")?;
    if let Ok(g) = file::read(&file) {
        say::field(rt, g.layout as u64)?;
    }
    span(rt, &file)
}

// By itself each of three slots would get 3 of the 10 Wh.
pub fn slot_alone(rt: &impl Print) -> io::Result<()> {
    let rows = books::scaled_rows(1, 96);
    let mut file = [0u8; 334];
    let _ = books::publish_rows(books::head_of(1, 30, 1), &rows, &mut file);
    say::text(rt, b"scaling each slot by itself: sum")?;
    if let Ok(g) = file::read(&file) {
        say::field(rt, g.sum)?;
    }
    say::text(rt, b"\n")
}

// The day number in the trailer of a book with no delivery, or the refusal's.
fn date(
    rt: &impl Print,
    label: &[u8],
    year: u32,
    month: u32,
    day: u32,
    days: u32,
) -> io::Result<()> {
    let head = Head {
        year,
        month,
        day,
        days,
        interval: 30,
        limit: books::limit_of(1),
        tolerance: 0,
    };
    let rows = [Row::Holiday(0)];
    let mut file = [0u8; 320];
    let published = books::publish_rows(head, &rows, &mut file);
    say::text(rt, label)?;
    match published {
        Ok(_) => first_day(rt, &file)?,
        Err(refusal) => say::refused(rt, refusal)?,
    }
    say::text(rt, b"\n")
}

fn first_day(rt: &impl Print, file: &[u8]) -> io::Result<()> {
    if let Ok(g) = file::read(file) {
        say::text(rt, b" day")?;
        say::field(rt, g.first as u64)?;
    }
    Ok(())
}

pub fn dates(rt: &impl Print) -> io::Result<()> {
    date(rt, b"2000-02-29 D 1:", 2000, 2, 29, 1)?;
    date(rt, b"2001-02-29 D 1:", 2001, 2, 29, 1)?;
    date(rt, b"2099-12-31 D 1:", 2099, 12, 31, 1)?;
    date(rt, b"2099-12-31 D 2:", 2099, 12, 31, 2)
}
