// Bytes put into a lent buffer as far as it reaches. Those behind its end are counted and not stored, so one pass gives the length alone.
ghost use Rattle.std.specs.Prelude.{◌≡◌, ◌+◌, set};
ghost use Rattle.line.specs.Line.{digits, places as Line·places, decimal};
ghost use Rattle.line.specs.Inner.Writing.{Added};

// Stores a byte at place `at + j`, where the buffer has it.
fn put_byte(out: &mut [u8], at: usize, j: usize, byte: u8)
    ensures { out.new ≡ set out.old (at + j) byte }
{
    if at < out.len() && j < out.len() - at {
        out[at + j] = byte;
    }
}

// Each function below puts a text from place `at` on and answers the place behind it, at most the highest number.
pub fn put_text(out: &mut [u8], at: usize, text: &[u8]) -> usize
    ensures { Added out.old at out.new result text.now }
{
    for (i, byte) in text.iter().enumerate() {
        put_byte(out, at, i, *byte);
    }
    at.saturating_add(text.len())
}

// The last `width` digits of `n`.
pub fn put_digits(out: &mut [u8], at: usize, width: usize, n: u64) -> usize
    ensures { Added out.old at out.new result (digits width n) }
{
    let mut rest = n;
    for j in (0..width).rev() {
        put_byte(out, at, j, 48 + (rest % 10) as u8);
        rest /= 10;
    }
    at.saturating_add(width)
}

// How many digits `n` has.
fn places(n: u64) -> usize
    ensures { result ≡ Line·places 19 n }
{
    let mut rest = n;
    for k in 1..20 {
        if rest < 10 {
            return k;
        }
        rest /= 10;
    }
    20
}

// A number with no leading zero.
pub fn put_decimal(out: &mut [u8], at: usize, n: u64) -> usize
    ensures { Added out.old at out.new result (decimal n) }
{
    put_digits(out, at, places(n), n)
}
