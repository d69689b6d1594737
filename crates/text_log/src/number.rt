// Numbers and dates of a log.
ghost use Rattle.std.specs.Prelude.{◌≡◌};
ghost use Rattle.text_log.specs.Numbers.{number_of, date_of_word};

// A date as it is written, whether there is such a day or not.
#[derive(Clone, Copy)]
pub struct Date {
    pub year: u32,
    pub month: u32,
    pub day: u32,
}

pub fn number_of(word: &[u8]) -> Option<u32>
    ensures { result ≡ number_of word.now }
{
    if word.is_empty() {
        return None;
    }
    let mut value: u64 = 0;
    for byte in word {
        if !byte.is_ascii_digit() {
            return None;
        }
        value = 10 * value + u64::from(*byte - b'0');
        if 4294967295 < value {
            return None;
        }
    }
    Some(value as u32)
}

pub fn date_of(word: &[u8]) -> Option<Date>
    ensures { result ≡ date_of_word word.now }
{
    if word.len() != 10 {
        return None;
    }
    if word[4] != b'-' {
        return None;
    }
    if word[7] != b'-' {
        return None;
    }
    let year = number_of(&word[..4])?;
    let month = number_of(&word[5..7])?;
    let day = number_of(&word[8..10])?;
    Some(Date { year, month, day })
}
