// An agreed call past its head and its lists' lengths (02, W1).
ghost use Rattle.std.specs.Prelude.{◌≡◌, length};
ghost use Rattle.book.specs.Answers.{received_meant};
ghost use Rattle.book.specs.Written.{written_agreed, SameAgreed};
ghost use Rattle.book.specs.Inner.Numbers.{number_answer, number_after};

use crate::lent::AgreedMut;
use crate::{Filed, filing};
use base::{EIGHT_DIGITS, Refusal};

pub fn file_number(
    agreed: &mut AgreedMut<'_>,
    place: u32,
    version: u32,
    number: u32,
) -> Result<Filed, Refusal>
    requires { length agreed.old.versions.now ≡ length agreed.old.values.now }
    ensures told { let before = written_agreed agreed.old in
        (received_meant result ≡ number_answer before place version number)
        × (written_agreed agreed.new ≡ number_after before place version number) }
    ensures same { SameAgreed agreed.old agreed.new }
{
    let at = place as usize;
    if agreed.values.len() <= at {
        return Err(Refusal::NoPlace);
    }
    if version == 0 {
        return Err(Refusal::VersionZero);
    }
    if EIGHT_DIGITS < number {
        return Err(Refusal::AgreedOver);
    }
    let found = filing::against_agreed(agreed.versions[at], agreed.values[at], version, number);
    if filing::is_stored(found) {
        agreed.values[at] = number;
        agreed.versions[at] = version;
    }
    found
}
