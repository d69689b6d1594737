// Cases that are told by the answers of the calls.
use crate::{books, say};
use book::lent::{AgreedMut, SlotsMut};
use rules::limits;
use std::io;

// Makes a delivery to a day and writes the answer.
fn deliver(
    rt: &impl Print,
    slots: &mut SlotsMut<'_>,
    counts: &mut [u16],
    slot: u32,
    version: u32,
    value: u32,
    status: u32,
) -> io::Result<()> {
    let head = books::head_of(1, 30, 1);
    say::answer(
        rt,
        book::deliver(head, slots, counts, slot, version, value, status),
    )
}

// Delivers slot 10, each call a version and a value.
fn deliver_each(
    rt: &impl Print,
    slots: &mut SlotsMut<'_>,
    counts: &mut [u16],
    calls: &[(u32, u32)],
) -> io::Result<()> {
    for (version, value) in calls {
        deliver(rt, slots, counts, 10, *version, *value, 0)?;
    }
    Ok(())
}

// A lower version is late and accepted; the same call again is repeat; an equal version with other content conflicts.
// A book of zeros is an open one.
pub fn late(rt: &impl Print) -> io::Result<()> {
    let mut values = [0u32; 48];
    let mut versions = [0u32; 48];
    let mut statuses = [0u8; 48];
    let mut counts = [0u16; 1];
    let calls = [(2, 100), (1, 900), (2, 100), (2, 900)];
    let mut slots = SlotsMut {
        values: &mut values,
        versions: &mut versions,
        statuses: &mut statuses,
    };
    say::text(rt, b"late as a refusal:")?;
    deliver_each(rt, &mut slots, &mut counts, &calls)?;
    say::text(rt, b"\n")
}

// A delivery of status 8 to an open book.
fn refuse(rt: &impl Print, slot: u32, version: u32) -> io::Result<()> {
    let mut values = [0u32; 48];
    let mut versions = [0u32; 48];
    let mut statuses = [0u8; 48];
    let mut counts = [0u16; 1];
    let mut slots = SlotsMut {
        values: &mut values,
        versions: &mut versions,
        statuses: &mut statuses,
    };
    deliver(rt, &mut slots, &mut counts, slot, version, 100, 8)
}

// A delivery that is wrong in its status, and with it in what stands before: the lowest number that applies is given.
pub fn lowest(rt: &impl Print) -> io::Result<()> {
    say::text(rt, b"lowest number of 3 4 5:")?;
    refuse(rt, 48, 0)?;
    refuse(rt, 10, 0)?;
    refuse(rt, 10, 1)?;
    say::text(rt, b"\n")
}

// Delivers slot 10 of a day with this count, where this version and value stand, and writes the answer.
fn deliver_counted(
    rt: &impl Print,
    count: u16,
    old_version: u32,
    old_value: u32,
    version: u32,
    value: u32,
) -> io::Result<()> {
    let mut values = [0u32; 48];
    let mut versions = [0u32; 48];
    let mut statuses = [0u8; 48];
    let mut counts = [count];
    versions[10] = old_version;
    values[10] = old_value;
    let mut slots = SlotsMut {
        values: &mut values,
        versions: &mut versions,
        statuses: &mut statuses,
    };
    deliver(rt, &mut slots, &mut counts, 10, version, value, 0)
}

// With 48 and more in its day's count a first delivery is refused; a later version and a repeat ask nothing of it.
pub fn counted(rt: &impl Print) -> io::Result<()> {
    say::text(rt, b"first deliveries at 0 47 48 65535:")?;
    deliver_counted(rt, 0, 0, 0, 1, 100)?;
    deliver_counted(rt, 47, 0, 0, 1, 100)?;
    deliver_counted(rt, 48, 0, 0, 1, 100)?;
    deliver_counted(rt, 65535, 0, 0, 1, 100)?;
    say::text(rt, b"\na later version and a repeat at 48:")?;
    deliver_counted(rt, 48, 1, 100, 2, 200)?;
    deliver_counted(rt, 48, 2, 200, 2, 200)?;
    say::text(rt, b"\n")
}

// Agrees slot 10 of a day and writes the answer.
fn agree_ten(
    rt: &impl Print,
    agreed: &mut AgreedMut<'_>,
    version: u32,
    value: u32,
) -> io::Result<()> {
    let head = books::head_of(1, 30, 1);
    say::answer(rt, book::agree(head, agreed, 10, version, value))
}

// By the version rule of a delivery.
fn four_agreed(rt: &impl Print, agreed: &mut AgreedMut<'_>) -> io::Result<()> {
    agree_ten(rt, agreed, 2, 600)?;
    agree_ten(rt, agreed, 1, 900)?;
    agree_ten(rt, agreed, 2, 600)?;
    agree_ten(rt, agreed, 2, 900)
}

pub fn agreed(rt: &impl Print) -> io::Result<()> {
    let mut values = [0u32; 48];
    let mut versions = [0u32; 48];
    let mut agreed = AgreedMut {
        values: &mut values,
        versions: &mut versions,
    };
    say::text(rt, b"agreed by versions:")?;
    four_agreed(rt, &mut agreed)?;
    say::text(rt, b"\nagreed 99999999 and 100000000:")?;
    agree_ten(rt, &mut agreed, 3, 99999999)?;
    agree_ten(rt, &mut agreed, 4, 100000000)?;
    say::text(rt, b"\n")
}

// Loads a place of a table and writes the limit, or the refusal's number.
fn load(rt: &impl Print, table: &[u32], kind: u32) -> io::Result<()> {
    match limits::load(table, kind) {
        Ok(n) => say::field(rt, n as u64),
        Err(refusal) => say::refused(rt, refusal),
    }
}

// Loads a place of a table of two.
fn load_of_two(rt: &impl Print, first: u32, second: u32, kind: u32) -> io::Result<()> {
    let table = [first, second];
    load(rt, &table, kind)
}

// The first and last place of a table, and the places beside them; then tables that are none.
pub fn limits(rt: &impl Print) -> io::Result<()> {
    say::text(rt, b"kinds 0 1 2 3 of 40000 70000:")?;
    load_of_two(rt, 40000, 70000, 0)?;
    load_of_two(rt, 40000, 70000, 1)?;
    load_of_two(rt, 40000, 70000, 2)?;
    load_of_two(rt, 40000, 70000, 3)?;
    say::text(
        rt,
        b"\ntables 40000 40000, 1 1000000, 1 1000001, 0 1 and none:",
    )?;
    load_of_two(rt, 40000, 40000, 3)?;
    load_of_two(rt, 1, 1000000, 2)?;
    load_of_two(rt, 1, 1000001, 1)?;
    load_of_two(rt, 0, 1, 1)?;
    let table = [0, 1];
    load(rt, &table[..0], 1)?;
    say::text(rt, b"\n")
}
