// A delivery's line in one pass: nearly every line of a log is one. What reads it is inlined, so that `delivery_end` computes no values
// (docs/DECISIONS.md).
ghost use Rattle.std.specs.Prelude.{true, ◌≡◌, ◌+◌, ◌≤◌, length, take, drop, IfSome};
ghost use Rattle.text_log.specs.Inner.Deliveries.{keyword, DigitsAt, FieldAt, NumbersAt, KeyedAt, DeliveryAt, DeliveryTo};

// A row of digits, up to `end`, and its value.
#[derive(Clone, Copy)]
pub struct Digits {
    pub value: u32,
    pub end: usize,
}

// A number that a separator follows, and the place after that.
#[derive(Clone, Copy)]
pub struct Field {
    pub value: u32,
    pub next: usize,
}

// The four numbers of a delivery, and the place where the next line begins.
#[derive(Clone, Copy)]
pub struct Delivery {
    pub slot: u32,
    pub version: u32,
    pub value: u32,
    pub status: u32,
    pub next: usize,
}

// The keyword stands at `at`.
fn is_delivery(bytes: &[u8], at: usize) -> bool
    requires { at + 9 ≤ length bytes.now }
    ensures { result ≡ true → take 9 (drop at bytes.now) ≡ keyword }
{
    bytes[at..].starts_with(b"delivery ")
}

// The digits from `from` on, nine at most: they stay below 1,000,000,000.
#[inline(always)]
fn digits_at(bytes: &[u8], from: usize) -> Digits
    requires { from + 9 ≤ length bytes.now }
    ensures { DigitsAt bytes.now from result.value result.end }
{
    let mut value = 0;
    for end in from..from + 9 {
        let byte = bytes[end];
        if !byte.is_ascii_digit() {
            return Digits { value, end };
        }
        value = 10 * value + u32::from(byte - b'0');
    }
    Digits {
        value,
        end: from + 9,
    }
}

// The number that begins at `from`, where the separator follows it.
#[inline(always)]
fn field_at(bytes: &[u8], from: usize, separator: u8) -> Option<Field>
    requires { from + 10 ≤ length bytes.now }
    ensures { IfSome result (λ field. FieldAt bytes.now from separator field.value field.next) }
{
    let Digits { value, end } = digits_at(bytes, from);
    if end == from {
        return None;
    }
    if bytes[end] != separator {
        return None;
    }
    Some(Field {
        value,
        next: end + 1,
    })
}

// The numbers of a delivery from `from` on, with `separator` after the last.
#[inline(always)]
fn numbers_at(bytes: &[u8], from: usize, separator: u8) -> Option<Delivery>
    requires { from + 40 ≤ length bytes.now }
    ensures { IfSome result (NumbersAt bytes.now from separator) }
{
    let slot = field_at(bytes, from, b' ')?;
    let version = field_at(bytes, slot.next, b' ')?;
    let value = field_at(bytes, version.next, b' ')?;
    let status = field_at(bytes, value.next, separator)?;
    Some(Delivery {
        slot: slot.value,
        version: version.value,
        value: value.value,
        status: status.value,
        next: status.next,
    })
}

// The keyword at `at` and the numbers behind it, where each has nine digits at most and the bytes have room for them.
#[inline(always)]
fn keyed_at(bytes: &[u8], at: usize, separator: u8) -> Option<Delivery>
    requires { at ≤ length bytes.now }
    ensures { IfSome result (KeyedAt bytes.now at separator) }
{
    if bytes.len() - at < 49 {
        return None;
    }
    if !is_delivery(bytes, at) {
        return None;
    }
    numbers_at(bytes, at + 9, separator)
}

// The delivery whose line begins at `at` and ends in LF, where it is in that form; another line may be one too.
#[inline(always)]
pub fn delivery_at(bytes: &[u8], at: usize) -> Option<Delivery>
    requires { at ≤ length bytes.now }
    ensures { IfSome result (DeliveryAt bytes.now at) }
{
    keyed_at(bytes, at, b'\n')
}

// Where the line after such a delivery begins.
pub fn delivery_end(bytes: &[u8], at: usize) -> Option<usize>
    requires { at ≤ length bytes.now }
    ensures { IfSome result (DeliveryTo bytes.now at) }
{
    let delivery = keyed_at(bytes, at, b'\n')?;
    Some(delivery.next)
}
