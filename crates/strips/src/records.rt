// Records in a buffer: value (4 bytes, low byte first), quality letter, method. The bytes of one record stand `step` apart.
ghost use Rattle.std.specs.Prelude.{◌≡◌, ◌+◌, ◌*◌, ◌<◌, ◌≤◌, length};
ghost use Rattle.strips.specs.Strips.{number, value_at, day_earlier};
ghost use Rattle.strips.specs.Inner.Laying.{spaced, strewn, record_of};

// The value of the record at `at`.
pub fn value(bytes: &[u8], at: usize, step: usize) -> u64
    requires { at + 3 * step < length bytes.now }
    ensures { (result ≡ number (spaced bytes.now at step)) × (result < 4_294_967_296) }
{
    let first = bytes[at] as u64;
    let second = bytes[at + step] as u64;
    let third = bytes[at + 2 * step] as u64;
    let fourth = bytes[at + 3 * step] as u64;
    first + 256 * second + 65_536 * third + 16_777_216 * fourth
}

// The value of the same position a day earlier, 0 on the first day.
pub fn day_earlier(table: &[u8], n: usize, i: usize) -> u64
    requires { (6 * i ≤ length table.now) × (0 < n) }
    ensures { (result ≡ day_earlier n (value_at table.now) i) × (result < 4_294_967_296) }
{
    if i < n {
        return 0;
    }
    value(table, 6 * (i - n), 1)
}

// Writes a record at `at`.
pub fn put(out: &mut [u8], at: usize, step: usize, value: u64, letter: u8, method: u8)
    requires { at + 5 * step < length out.old }
    ensures { out.new ≡ strewn out.old at step (record_of value letter method) }
{
    let second = at + step;
    let third = second + step;
    let fourth = third + step;
    let fifth = fourth + step;
    out[at] = (value % 256) as u8;
    out[second] = (value / 256 % 256) as u8;
    out[third] = (value / 65_536 % 256) as u8;
    out[fourth] = (value / 16_777_216 % 256) as u8;
    out[fifth] = letter;
    out[fifth + step] = method;
}
