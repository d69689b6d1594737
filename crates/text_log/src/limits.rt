// The table of a line `limits` (02, W5).
ghost use Rattle.std.specs.Prelude.{[], ◌≡◌};
ghost use Rattle.text_log.specs.Line.{limits_of};
ghost use Rattle.text_log.specs.Log.{table_of};
ghost use Rattle.rules.specs.Limits.{load_answer};
ghost use Rattle.text_log.specs.Inner.Parsing.{words_left, limits_in};

use crate::{number, words};
use base::Refusal;
use rules::limits as demand;

// The first `count` values are a table; a count of 0 is none.
#[derive(Clone, Copy)]
pub struct Limits {
    pub values: [u32; 24],
    pub count: usize,
}

pub fn none() -> Limits
    ensures { result ≡ limits_of [] }
{
    Limits {
        values: [0; 24],
        count: 0,
    }
}

// The words left, where they are 1 to 24 numbers.
pub fn limits_in(mut rest: &[u8]) -> Option<Limits>
    ensures { result ≡ limits_in (words_left rest.now) }
{
    let mut values = [0; 24];
    let mut count = 0;
    'words: while let Some((word, after)) = words::next_word(rest) {
        if count == 24 {
            return None;
        }
        values[count] = number::number_of(word)?;
        count += 1;
        rest = after;
    }
    if count == 0 {
        return None;
    }
    Some(Limits { values, count })
}

// What a place of a table holds. A table has room for 24 limits.
pub fn load_from(limits: Limits, kind: u32) -> Result<u32, Refusal>
    ensures { result ≡ load_answer (table_of limits) kind }
{
    let count = limits.count.min(24);
    demand::load(&limits.values[..count], kind)
}
