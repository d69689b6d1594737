// A slot's written quality and method.
ghost use Rattle.std.specs.Prelude.{◌≡◌, ◌+◌, ◌*◌, ◌≤◌, length};
ghost use Rattle.file.specs.Reader.{slot_at};
ghost use Rattle.market.specs.Fields.{has_code, code_for, mark_of, alike, marked, one_mark, day_mark, ends_run};
ghost use Rattle.line.specs.Inner.Writing.{Added};

use crate::Codes;
use crate::writing::put_field;
use line::writing::{put_digits, put_text};

// The letter, and the method code where one is written with it.
#[derive(Clone, Copy, PartialEq, Eq)]
pub struct Mark {
    pub letter: u8,
    pub code: Option<u32>,
}

// S and F are written with method and reason code.
fn has_code(letter: u8) -> bool
    ensures { result ≡ has_code letter }
{
    letter == b'S' || letter == b'F'
}

#[tactic(auto, unfolding(crate::specs::Fields::code_for))]
fn code_for(codes: Codes, method: u8) -> u32
    ensures { result ≡ code_for codes method }
{
    match method {
        2 => codes.two,
        3 => codes.three,
        5 => codes.five,
        18 => codes.eighteen,
        _ => codes.nineteen,
    }
}

// What is written of slot `i`.
pub fn mark_at(file: &[u8], codes: Codes, i: usize) -> Mark
    requires { 6 * (i + 1) ≤ length file.now }
    ensures { result ≡ mark_of codes (slot_at file.now i) }
{
    let letter = file[6 * i + 4];
    let method = file[6 * i + 5];
    if !has_code(letter) {
        return Mark { letter, code: None };
    }
    let code = Some(code_for(codes, method));
    Mark { letter, code }
}

pub fn are_alike(a: Mark, b: Mark) -> bool
    ensures { result ≡ alike a b }
{
    a == b
}

// The `n` slots from slot `a` are alike.
pub fn are_all_alike(file: &[u8], codes: Codes, a: usize, n: usize) -> bool
    requires { (6 * (a + n) ≤ length file.now) × (1 ≤ n) }
    ensures { result ≡ one_mark (λ i. mark_of codes (slot_at file.now i)) a n }
{
    let first = mark_at(file, codes, a);
    for j in 0..n {
        if !are_alike(first, mark_at(file, codes, a + j)) {
            return false;
        }
    }
    true
}

// The mark of a day: V where its slots are not alike.
pub fn day_mark(file: &[u8], codes: Codes, a: usize, one: bool) -> Mark
    requires { 6 * (a + 1) ≤ length file.now }
    ensures { result ≡ day_mark one (mark_of codes (slot_at file.now a)) }
{
    if one {
        return mark_at(file, codes, a);
    }
    Mark {
        letter: b'V',
        code: None,
    }
}

// A run of slots alike ends with the day's slot `j`.
pub fn ends_run(file: &[u8], codes: Codes, a: usize, n: usize, j: usize) -> bool
    requires { (6 * (a + n) ≤ length file.now) × (j + 1 ≤ n) }
    ensures { result ≡ ends_run (λ i. mark_of codes (slot_at file.now i)) a n j }
{
    if j + 1 == n {
        return true;
    }
    let here = mark_at(file, codes, a + j);
    !are_alike(here, mark_at(file, codes, a + (j + 1)))
}

// QualityMethod,ReasonCode,ReasonDescription
pub fn put_mark(out: &mut [u8], at: usize, mark: Mark, reason: &[u8]) -> usize
    ensures { Added out.old at out.new result (marked mark reason.now) }
{
    let letter = [b',', mark.letter];
    let quality = put_text(out, at, &letter);
    let Some(code) = mark.code else {
        return put_text(out, quality, b",,");
    };
    let method = put_digits(out, quality, 2, code as u64);
    let cause = put_field(out, method, reason);
    put_text(out, cause, b",")
}
