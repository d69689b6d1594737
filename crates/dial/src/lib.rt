// A reading and the four bytes in which a charger's meter sends it (02, W9).
#![tactic(auto)]

ghost use Rattle.std.specs.Prelude.{[], ◌∷◌, ◌≡◌, ◌+◌, ◌*◌, ◌≤◌};
ghost use Rattle.dial.specs.Dial.{byte_at, above_nine, upper, lower, pack_answer, pack_after, unpack_answer};

use base::{EIGHT_DIGITS, Refusal};

// The last two digits of `n` in a byte.
fn two_digits(n: u32) -> u8
    ensures { result ≡ byte_at 0 n }
{
    (16 * (n / 10 % 10) + n % 10) as u8
}

// Whether a half of `byte` is above 9.
fn above_nine(byte: u8) -> bool
    ensures { result ≡ above_nine (byte ∷ []) }
{
    if 9 < byte / 16 {
        return true;
    }
    9 < byte % 16
}

// The number that two digits are; a half byte above 9 counts as it stands.
fn value(byte: u8) -> u32
    ensures { (result ≡ 10 * upper byte + lower byte) × (result ≤ 165) }
{
    let wide = byte as u32;
    10 * (wide / 16) + wide % 16
}

// Puts the form of `reading` into four bytes.
pub fn pack(reading: u32, bytes: &mut [u8]) -> Result<(), Refusal>
    ensures { (result ≡ pack_answer reading bytes.old)
        × (bytes.new ≡ pack_after reading bytes.old) }
{
    if bytes.len() != 4 {
        return Err(Refusal::WrongLength);
    }
    if EIGHT_DIGITS < reading {
        return Err(Refusal::ReadingOver);
    }
    bytes[0] = two_digits(reading);
    bytes[1] = two_digits(reading / 100);
    bytes[2] = two_digits(reading / 10_000);
    bytes[3] = two_digits(reading / 1_000_000);
    Ok(())
}

// The reading of which `bytes` are the form.
pub fn unpack(bytes: &[u8]) -> Result<u32, Refusal>
    ensures { result ≡ unpack_answer bytes.now }
{
    let [a, b, c, d] = bytes else {
        return Err(Refusal::WrongLength);
    };
    for byte in bytes {
        if above_nine(*byte) {
            return Err(Refusal::HalfByteOver);
        }
    }
    let low = value(*a) + 100 * value(*b);
    let high = value(*c) + 100 * value(*d);
    Ok(low + 10_000 * high)
}
