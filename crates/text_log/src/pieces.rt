// Pieces between separators: the words of a line, and the lines of a log.
ghost use Rattle.std.specs.Prelude.{[], ◌∷◌, ◌++◌, ◌≡◌, ◌==◌};
ghost use Rattle.std.specs.List.{position};
ghost use Rattle.text_log.specs.Words.{split};
ghost use Rattle.text_log.specs.Inner.Parsing.{pieces_left};

// Where a byte stands first.
pub fn place_of(bytes: &[u8], byte: u8) -> Option<usize>
    ensures { result ≡ position (λ b. b == byte) bytes.now }
{
    bytes.iter().position(|b| *b == byte)
}

// The first piece, and the bytes from the separator behind it on.
pub fn cut(bytes: &[u8], separator: u8) -> (&[u8], &[u8])
    ensures whole { bytes.now ≡ result.0.now ++ result.1.now }
    ensures pieces { split separator [] bytes.now ≡ result.0.now ∷ pieces_left separator result.1.now }
{
    let end = place_of(bytes, separator).unwrap_or(bytes.len());
    bytes.split_at(end)
}
