// The version rule of deliveries, register reads and agreed calls (01, The three calls that fill it; 02, W1).
ghost use Rattle.std.specs.Prelude.{◌≡◌};
ghost use Rattle.book.specs.Answers.{received_meant, by_version};

use crate::Filed;
use base::Refusal;

pub fn by_version(before: u32, version: u32, same: bool) -> Result<Filed, Refusal>
    ensures { received_meant result ≡ by_version before version same }
{
    if before < version {
        return Ok(Filed::Stored);
    }
    if version < before {
        return Ok(Filed::Late);
    }
    if same {
        return Ok(Filed::Repeat);
    }
    Err(Refusal::Conflict)
}
