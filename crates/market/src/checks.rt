// What the caller supplies: what is refused with 14 and 15.
ghost use Rattle.std.specs.Prelude.{Bool, ℕ, ◌&&◌, [], ◌∷◌, ◌≡◌};
ghost use Rattle.base.specs.Lists.{every};
ghost use Rattle.market.specs.Export.{identifier_byte, plain_byte, digit_byte, Tells, all_of};
ghost use Rattle.market.specs.Export.{identifier_ok, time_ok, codes_ok, supplied_ok};
ghost use Rattle.market.specs.Fields.{lent};

use crate::{Codes, Texts};

fn is_digit(byte: u8) -> bool
    ensures { result ≡ digit_byte byte }
{
    b'0' <= byte && byte <= b'9'
}

// A to Z without I and O, 0 to 9.
fn is_identifier(byte: u8) -> bool
    ensures { result ≡ identifier_byte byte }
{
    is_digit(byte) || b'A' <= byte && byte <= b'Z' && byte != b'I' && byte != b'O'
}

// 0x20 to 0x7E without the comma.
fn is_plain(byte: u8) -> bool
    ensures { result ≡ plain_byte byte }
{
    32 <= byte && byte <= 126 && byte != b','
}

// Every byte passes the test.
fn all_of<F: Fn(u8) -> bool>(test: F, text: &[u8]) -> bool
    requires { F.IsAlwaysCallable test }
    ensures { (k : ℕ → Bool) → Tells (F.post test) k → result ≡ all_of k text.now }
{
    for byte in text {
        if !test(*byte) {
            return false;
        }
    }
    true
}

#[tactic(auto, unfolding(crate::specs::Export::identifier_ok))]
pub fn is_meter(identifier: &[u8]) -> bool
    ensures { result ≡ identifier_ok identifier.now }
{
    identifier.len() == 10 && all_of(|b| is_identifier(b), identifier)
}

#[tactic(auto, unfolding(crate::specs::Export::time_ok))]
fn is_time(created: &[u8]) -> bool
    ensures { result ≡ time_ok created.now }
{
    created.len() == 14 && all_of(|b| is_digit(b), created)
}

#[tactic(auto, unfolding(crate::specs::Export::codes_ok))]
fn are_codes(codes: Codes) -> bool
    ensures { result ≡ codes_ok codes }
{
    codes.two <= 99
        && codes.three <= 99
        && codes.five <= 99
        && codes.eighteen <= 99
        && codes.nineteen <= 99
}

fn are_plain(a: &[u8], b: &[u8]) -> bool
    ensures { result ≡ (all_of plain_byte a.now && all_of plain_byte b.now) }
{
    all_of(|b| is_plain(b), a) && all_of(|b| is_plain(b), b)
}

// The header texts but the identifier, in the order of the records.
fn are_headers(texts: &Texts) -> bool
    ensures { let t = lent texts.now in
        result ≡ every ((all_of plain_byte t.from && all_of plain_byte t.to)
        ∷ (all_of plain_byte t.configuration && all_of plain_byte t.register)
        ∷ (all_of plain_byte t.suffix && all_of plain_byte t.stream)
        ∷ (all_of plain_byte t.serial && all_of plain_byte t.next_read)
        ∷ []) }
{
    are_plain(texts.from, texts.to)
        && are_plain(texts.configuration, texts.register)
        && are_plain(texts.suffix, texts.stream)
        && are_plain(texts.serial, texts.next_read)
}

// The reason code, the creation time and the method codes.
fn are_reason_time_codes(texts: &Texts, codes: Codes) -> bool
    ensures { let t = lent texts.now in
        result ≡ every (all_of plain_byte t.reason ∷ time_ok t.created ∷ codes_ok codes ∷ []) }
{
    all_of(|b| is_plain(b), texts.reason) && is_time(texts.created) && are_codes(codes)
}

// What is refused with 15 where it is false.
pub fn are_supplied(texts: &Texts, codes: Codes) -> bool
    ensures { result ≡ supplied_ok (lent texts.now) codes }
{
    are_headers(texts) && are_reason_time_codes(texts, codes)
}
