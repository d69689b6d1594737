// What the program writes: texts, numbers, and what is published of a slot.
use base::Refusal;
use book::Filed;
use std::io;

pub fn text(rt: &impl Print, bytes: &[u8]) -> io::Result<()> {
    rt.write_all(bytes)
}

// A space and a number.
pub fn field(rt: &impl Print, n: u64) -> io::Result<()> {
    let mut out = [0u8; 21];
    let k = line::number(n, &mut out);
    rt.write_all(&out[..k])
}

// Two hexadecimal digits.
pub fn hex(rt: &impl Print, byte: u8) -> io::Result<()> {
    let digits = b"0123456789ABCDEF";
    let high = (byte / 16) as usize;
    let low = (byte % 16) as usize;
    let pair = [digits[high], digits[low]];
    rt.write_all(&pair)
}

// The byte `k` places after `at`; past the end of the file, 0.
pub fn byte_at(file: &[u8], at: usize, k: usize) -> u8 {
    if at < file.len() {
        if k < file.len() - at {
            return file[at + k];
        }
    }
    0
}

// Four bytes, the low one first.
pub fn word_at(file: &[u8], at: usize) -> u64 {
    let low = byte_at(file, at, 0) as u64 + 256 * (byte_at(file, at, 1) as u64);
    let high = byte_at(file, at, 2) as u64 + 256 * (byte_at(file, at, 3) as u64);
    low + 65536 * high
}

// Value, quality and method of a slot, as published.
pub fn outcome(rt: &impl Print, file: &[u8], slot: u32) -> io::Result<()> {
    let at = 6 * (slot as usize);
    let letter = [32, byte_at(file, at, 4)];
    field(rt, word_at(file, at))?;
    text(rt, &letter)?;
    field(rt, byte_at(file, at, 5) as u64)
}

pub fn refused(rt: &impl Print, refusal: Refusal) -> io::Result<()> {
    text(rt, b" refused")?;
    field(rt, refusal.number() as u64)
}

pub fn answer(rt: &impl Print, filed: Result<Filed, Refusal>) -> io::Result<()> {
    match filed {
        Ok(Filed::Stored) => text(rt, b" stored"),
        Ok(Filed::Late) => text(rt, b" late"),
        Ok(Filed::Repeat) => text(rt, b" repeat"),
        Err(refusal) => refused(rt, refusal),
    }
}
