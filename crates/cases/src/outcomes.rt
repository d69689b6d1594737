// Cases that are told by the outcomes of some slots.
use crate::books::Row;
use crate::{books, say};
use rules::Head;
use std::io;

// Publishes the book of a list of rows and writes the outcomes of some of its slots.
fn show(rt: &impl Print, label: &[u8], head: Head, rows: &[Row], slots: &[u32]) -> io::Result<()> {
    let mut file = [0u8; 8398];
    let _ = books::publish_rows(head, rows, &mut file);
    say::text(rt, label)?;
    for slot in slots {
        say::outcome(rt, &file, *slot)?;
    }
    say::text(rt, b"\n")
}

// One slot delivered, its neighbours not: good, or with a cause and then N.
fn demand(rt: &impl Print, label: &[u8], interval: u32, kind: u32, value: u32) -> io::Result<()> {
    let rows = [Row::Run(10, 11, value, 0)];
    let slots = [10];
    show(rt, label, books::head_of(1, interval, kind), &rows, &slots)
}

pub fn demands(rt: &impl Print) -> io::Result<()> {
    demand(rt, b"kind 1 L 30 demand 20000:", 30, 1, 20000)?;
    demand(rt, b"kind 1 L 30 demand 20001:", 30, 1, 20001)?;
    demand(rt, b"kind 1 L 5 demand 3333:", 5, 1, 3333)?;
    demand(rt, b"kind 1 L 5 demand 3334:", 5, 1, 3334)?;
    demand(rt, b"kind 2 L 30 demand 30000:", 30, 2, 30000)?;
    demand(rt, b"kind 2 L 30 demand 40000:", 30, 2, 40000)
}

pub fn linear(rt: &impl Print) -> io::Result<()> {
    let rows = [Row::Run(10, 11, 7, 0), Row::Run(12, 13, 10, 0)];
    let slots = [11];
    show(
        rt,
        b"linear between 7 and 10:",
        books::head_of(1, 30, 1),
        &rows,
        &slots,
    )
}

// Two hours of half hours are filled, half an hour more is not.
pub fn lines(rt: &impl Print) -> io::Result<()> {
    let falling = [Row::Run(10, 11, 10, 0), Row::Run(14, 15, 4, 0)];
    let three = [11, 12, 13];
    show(
        rt,
        b"10, three slots, 4:",
        books::head_of(1, 30, 1),
        &falling,
        &three,
    )?;
    let two_hours = [Row::Run(10, 11, 10, 0), Row::Run(15, 16, 20, 0)];
    let longer = [Row::Run(10, 11, 10, 0), Row::Run(16, 17, 20, 0)];
    let ends = [11, 14];
    show(
        rt,
        b"four half hours:",
        books::head_of(1, 30, 1),
        &two_hours,
        &ends,
    )?;
    show(
        rt,
        b"five half hours:",
        books::head_of(1, 30, 1),
        &longer,
        &ends,
    )
}

// Slot 10 of the last of 29 days is a partial interval; `rows` has slot 10 of the days 7, 14, 21 and 28 before it.
fn week_case(rt: &impl Print, label: &[u8], rows: &[Row]) -> io::Result<()> {
    let slots = [1354];
    show(rt, label, books::head_of(29, 30, 1), rows, &slots)
}

// 000's table at 5:00 and 16:00: last week failed, at 5:00 the week before had an outage.
pub fn references(rt: &impl Print) -> io::Result<()> {
    let five = [
        Row::Run(1354, 1355, 6000, 4),
        Row::Run(1018, 1019, 1078, 4),
        Row::Run(682, 683, 0, 2),
        Row::Run(346, 347, 1045, 0),
        Row::Run(10, 11, 1089, 0),
    ];
    week_case(rt, b"references 1045 1089:", &five)?;
    let sixteen = [
        Row::Run(1354, 1355, 50, 4),
        Row::Run(1018, 1019, 2058, 4),
        Row::Run(682, 683, 2310, 0),
        Row::Run(346, 347, 1995, 0),
        Row::Run(10, 11, 2079, 0),
    ];
    week_case(rt, b"references 2310 1995 2079:", &sixteen)
}

// The three gaps of a scaled span.
fn scaled_case(rt: &impl Print, label: &[u8], e: u32, rest: u32) -> io::Result<()> {
    let rows = books::scaled_rows(e, rest);
    let slots = [1, 3, 5];
    show(rt, label, books::head_of(1, 30, 1), &rows, &slots)
}

pub fn scaled(rt: &impl Print) -> io::Result<()> {
    scaled_case(rt, b"R 110 V 100 e 1 1 1:", 1, 96)?;
    scaled_case(rt, b"R 110 V 100 e 0 0 0:", 0, 100)
}

// The last of 29 days has a gap between two deliveries of `line`, a gap at its end with the references `near` and `far`, 0 between,
// and an advance of 12.
fn fitted_case(rt: &impl Print, label: &[u8], line: u32, near: u32, far: u32) -> io::Result<()> {
    let rows = [
        Row::Run(719, 720, far, 0),
        Row::Run(1055, 1056, near, 0),
        Row::Run(1344, 1345, line, 0),
        Row::Run(1346, 1347, line, 0),
        Row::Run(1347, 1391, 0, 0),
        Row::Register(28, 1, 0, 0),
        Row::Register(29, 1, 12, 0),
    ];
    let slots = [1345, 1391];
    show(rt, label, books::head_of(29, 30, 1), &rows, &slots)
}

// T is 10 and E 30, so the first gap gets 10 × 12 / 30, where rounded means of 1 and 1 give 5; then T is 12 and E 6; last T is 12,
// and each shape counts as 1.
pub fn fitted(rt: &impl Print) -> io::Result<()> {
    fitted_case(rt, b"shapes 12 and 18, T 10:", 1, 1, 2)?;
    fitted_case(rt, b"shapes 0 and 6, T 12:", 0, 0, 1)?;
    fitted_case(rt, b"shapes 0 and 0, T 12:", 0, 0, 0)
}

// The agreed gap beside an outage, and the good slot that is agreed too.
pub fn agreed(rt: &impl Print) -> io::Result<()> {
    let rows = books::agreed_rows();
    let slots = [1, 2];
    show(
        rt,
        b"agreed 600 beside an outage, 700 on a good slot:",
        books::head_of(1, 30, 1),
        &rows,
        &slots,
    )
}

// The week that failed and the one on a holiday are no references; no slot is filled from a filled neighbour.
pub fn slips(rt: &impl Print) -> io::Result<()> {
    let failed = [
        Row::Run(1354, 1355, 6000, 4),
        Row::Run(1018, 1019, 2000, 4),
        Row::Run(682, 683, 3000, 0),
        Row::Holiday(14),
        Row::Run(346, 347, 1000, 0),
    ];
    week_case(rt, b"averaging over slots that failed:", &failed)?;
    let gaps = [
        Row::Run(10, 11, 7, 0),
        Row::Agreed(12, 1, 9),
        Row::Run(14, 15, 10, 0),
    ];
    let slots = [11, 12, 13];
    show(
        rt,
        b"a linear fill from a filled neighbour:",
        books::head_of(1, 30, 1),
        &gaps,
        &slots,
    )
}
