// The cells that no calls could leave (01, Numbers of a refusal, 11; 02, W1 and W10).
ghost use Rattle.std.specs.Prelude.{◌≡◌};
ghost use Rattle.book.specs.Cells.{slot_fault, day_fault, number_fault, read_fault};

use base::EIGHT_DIGITS;
use rules::MOST_WIDTH;

pub fn slot_fault(version: u32, value: u32, status: u8) -> bool
    ensures { result ≡ slot_fault version value status }
{
    if version != 0 {
        return 7 < status;
    }
    if value != 0 {
        return true;
    }
    status != 0
}

pub fn day_fault(cell: u8) -> bool
    ensures { result ≡ day_fault cell }
{
    1 < cell
}

// a reading, a width or an agreed value
pub fn number_fault(limit: u32, version: u32, number: u32) -> bool
    ensures { result ≡ number_fault limit version number }
{
    if limit < number {
        return true;
    }
    if version != 0 {
        return false;
    }
    number != 0
}

pub fn read_fault(version: u32, reading: u32, width: u16) -> bool
    ensures { result ≡ read_fault version reading width }
{
    if number_fault(EIGHT_DIGITS, version, reading) {
        return true;
    }
    number_fault(MOST_WIDTH, version, width as u32)
}
