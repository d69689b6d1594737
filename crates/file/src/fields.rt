// Numbers in the bytes of a file, low byte first.
ghost use Rattle.std.specs.Prelude.{◌≡◌, ◌+◌, ◌^◌, ◌<◌, ◌≤◌, length};
ghost use Rattle.file.specs.Layout.{bytes};
ghost use Rattle.file.specs.Reader.{num};
ghost use Rattle.file.specs.Inner.Writing.{written};

// The number in the `width` bytes from `at`.
pub fn number(s: &[u8], at: usize, width: usize) -> u64
    requires { (at + width ≤ length s.now) × (width ≤ 8) }
    ensures { (result ≡ num width s.now at) × (result < 256 ^ width) }
{
    let mut n = 0;
    for j in (0..width).rev() {
        n = n * 256 + s[at + j] as u64;
    }
    n
}

// Writes `n` in the `width` bytes from `at`.
pub fn put(buf: &mut [u8], at: usize, width: usize, n: u64)
    requires { (at + width ≤ length buf.old) × (width ≤ 8) }
    ensures { buf.new ≡ written buf.old at (bytes width n) }
{
    let mut rest = n;
    for j in 0..width {
        buf[at + j] = (rest % 256) as u8;
        rest /= 256;
    }
}
