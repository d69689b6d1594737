// Words of a line.
ghost use Rattle.std.specs.Prelude.{◌∷◌, [], ◌≡◌, ◌<◌, length, MatchOption};
ghost use Rattle.text_log.specs.Inner.Parsing.{words_left, numbers_in};

use crate::{number, pieces};

// The next word, where `rest` is what stands behind the last one, and what stands behind it.
pub fn next_word(rest: &[u8]) -> Option<(&[u8], &[u8])>
    ensures { MatchOption result (words_left rest.now ≡ [])
        (λ p. (words_left rest.now ≡ p.0.now ∷ words_left p.1.now) × (length p.1.now < length rest.now)) }
{
    let (_, after) = rest.split_first()?;
    Some(pieces::cut(after, b' '))
}

// The values of the words left, where they are `N` numbers. Inlined, so that they do not go through memory.
#[inline(always)]
pub fn values_in<const N: usize>(mut rest: &[u8]) -> Option<[u32; N]>
    ensures { result ≡ numbers_in N (words_left rest.now) }
{
    let mut values = [0; N];
    for value in &mut values {
        let (word, after) = next_word(rest)?;
        *value = number::number_of(word)?;
        rest = after;
    }
    if rest.is_empty() { Some(values) } else { None }
}
