// Cases that are told by an export to the market (02, W8).
ghost use Rattle.std.specs.Prelude.{◌≤◌, length};

use crate::books::Row;
use crate::{books, say};
use market::{Codes, Texts};
use std::io;

// The export of a day's file, or the refusal's number.
fn export(rt: &impl Print, file: &[u8]) -> io::Result<()> {
    let mut out = [0u8; 1000];
    let codes = Codes {
        two: 14,
        three: 14,
        five: 7,
        eighteen: 65,
        nineteen: 66,
    };
    let texts = Texts {
        identifier: b"6123456789",
        from: b"FROM",
        to: b"TO",
        configuration: b"E1Q1",
        register: b"1",
        suffix: b"E1",
        stream: b"N1",
        serial: b"SN1",
        next_read: b"20240701",
        reason: b"79",
        created: b"20240602093000",
    };
    match market::nem12(file, &texts, codes, &mut out) {
        Ok(n) => {
            if n <= out.len() {
                say::text(rt, &out[..n])?;
            }
            Ok(())
        }
        Err(refusal) => say::refused(rt, refusal),
    }
}

// The export of a day's book.
fn export_rows(rt: &impl Print, rows: &[Row]) -> io::Result<()> {
    let mut file = [0u8; 320];
    let _ = books::publish_rows(books::head_of(1, 30, 1), rows, &mut file);
    export(rt, &file)
}

// The first value, and the sum in the trailer.
fn make_largest(file: &mut [u8])
    requires { 312 ≤ length file.old }
{
    file[..4].fill(255);
    file[308..312].fill(255);
}

// No book gives this value: a day of 0 Wh has it put into its first slot, and into its sum.
fn largest(rt: &impl Print) -> io::Result<()> {
    let rows = [Row::Run(0, 48, 0, 0)];
    let mut file = [0u8; 320];
    let _ = books::publish_rows(books::head_of(1, 30, 1), &rows, &mut file);
    make_largest(&mut file);
    export(rt, &file)
}

// A day of 5 Wh in each slot; one of 0 Wh whose first and last slots are agreed; one with 4,294,967,295 Wh.
pub fn days(rt: &impl Print) -> io::Result<()> {
    let alike = [Row::Run(0, 48, 5, 0)];
    say::text(rt, b"a day alike:\n")?;
    export_rows(rt, &alike)?;
    let varies = [
        Row::Run(1, 47, 0, 0),
        Row::Agreed(0, 1, 620),
        Row::Agreed(47, 1, 5),
    ];
    say::text(
        rt,
        b"a day that varies, its first and last slot in runs of one:\n",
    )?;
    export_rows(rt, &varies)?;
    say::text(rt, b"the largest value:\n")?;
    largest(rt)
}
