// A call against its own cell: 11 goes before 10 (01, Numbers of a refusal).
ghost use Rattle.std.specs.Prelude.{◌&&◌, ◌≡◌, eqb};
ghost use Rattle.book.specs.Answers.{received_meant, is_stored};
ghost use Rattle.book.specs.Filling.{against_slot, against_day, against_boundary, against_agreed};
ghost use Rattle.book.specs.Contents.{measured, dial_read};

use crate::{Filed, cells, versions};
use base::{EIGHT_DIGITS, Refusal};

pub fn is_stored(found: Result<Filed, Refusal>) -> bool
    ensures { result ≡ is_stored (received_meant found) }
{
    matches!(found, Ok(Filed::Stored))
}

pub fn against_slot(
    old_version: u32,
    old_value: u32,
    old_status: u8,
    version: u32,
    value: u32,
    status: u8,
) -> Result<Filed, Refusal>
    ensures { received_meant result ≡ against_slot old_version (measured old_value old_status) version (measured value status) }
{
    if cells::slot_fault(old_version, old_value, old_status) {
        return Err(Refusal::ImpossibleCell);
    }
    let same = (old_value, old_status) == (value, status);
    versions::by_version(old_version, version, same)
}

pub fn against_day(cell: u8) -> Result<Filed, Refusal>
    ensures { received_meant result ≡ against_day cell }
{
    if cells::day_fault(cell) {
        return Err(Refusal::ImpossibleCell);
    }
    if cell == 0 {
        return Ok(Filed::Stored);
    }
    Ok(Filed::Repeat)
}

pub fn against_boundary(
    old_version: u32,
    old_reading: u32,
    old_width: u16,
    version: u32,
    reading: u32,
    width: u32,
) -> Result<Filed, Refusal>
    ensures { received_meant result ≡ against_boundary old_version (dial_read old_reading old_width) version (dial_read reading width) }
{
    if cells::read_fault(old_version, old_reading, old_width) {
        return Err(Refusal::ImpossibleCell);
    }
    let same_read = (old_reading, old_width as u32) == (reading, width);
    versions::by_version(old_version, version, same_read)
}

pub fn against_agreed(
    old_version: u32,
    old_value: u32,
    version: u32,
    value: u32,
) -> Result<Filed, Refusal>
    ensures { received_meant result ≡ against_agreed old_version old_value version value }
{
    if cells::number_fault(EIGHT_DIGITS, old_version, old_value) {
        return Err(Refusal::ImpossibleCell);
    }
    versions::by_version(old_version, version, old_value == value)
}
