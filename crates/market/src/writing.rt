// Fields behind a record's first. Each function puts one from place `at` on and answers the place behind it.
ghost use Rattle.line.specs.Line.{decimal};
ghost use Rattle.line.specs.Inner.Writing.{Added};
ghost use Rattle.market.specs.Fields.{field};

use line::writing::{put_decimal, put_text};

// A comma and a text.
pub fn put_field(out: &mut [u8], at: usize, text: &[u8]) -> usize
    ensures { Added out.old at out.new result (field text.now) }
{
    let next = put_text(out, at, b",");
    put_text(out, next, text)
}

// A comma and a number.
pub fn put_number(out: &mut [u8], at: usize, n: u64) -> usize
    ensures { Added out.old at out.new result (field (decimal n)) }
{
    let next = put_text(out, at, b",");
    put_decimal(out, next, n)
}
