// The answer of a filling call as one byte.
ghost use Rattle.std.specs.Prelude.{◌≡◌};
ghost use Rattle.book.specs.Answers.{received_meant, answer_code};

use crate::Filed;
use base::Refusal;

// 0 stored, 100 late, 101 repeat, else the refusal's number.
pub fn code_of(answer: Result<Filed, Refusal>) -> u8
    ensures { result ≡ answer_code (received_meant answer) }
{
    match answer {
        Ok(Filed::Stored) => 0,
        Ok(Filed::Late) => 100,
        Ok(Filed::Repeat) => 101,
        Err(refusal) => refusal.number(),
    }
}
