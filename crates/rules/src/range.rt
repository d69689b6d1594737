// Where the advance of a dial lies whose readings have widths, and the advance that a span is held to (02, W10).
ghost use Rattle.std.specs.Prelude.{◌≡◌, ◌-◌, ◌<◌};
ghost use Rattle.base.specs.Numbers.{dial_modulus};
ghost use Rattle.rules.specs.Spans.{range_of, least_in, is_near};

use base::DIAL_MODULUS;

#[derive(Clone, Copy)]
pub struct Range {
    pub lowest: u32,
    pub highest: u32,
}

// With `g` the advance of two readings, `u` the earlier one's width and `v` the later one's.
pub fn range_of(g: u32, u: u16, v: u16) -> Range
    requires { g < dial_modulus }
    ensures { result ≡ range_of g u v }
{
    let highest = g + (v as u32);
    if highest >= DIAL_MODULUS {
        return Range {
            lowest: 0,
            highest: highest - DIAL_MODULUS,
        };
    }
    Range {
        lowest: g.saturating_sub(u as u32),
        highest,
    }
}

// R: the least advance in the range that is at least `v`; if there is none, the highest.
pub fn least_in(range: Range, v: u64) -> u64
    ensures { result ≡ least_in range v }
{
    let lowest = range.lowest as u64;
    let highest = range.highest as u64;
    if v <= lowest {
        return lowest;
    }
    if v <= highest {
        return v;
    }
    highest
}

// Some advance in the range is within the tolerance of `v`.
pub fn is_near(range: Range, v: u64, tolerance: u64) -> bool
    ensures { result ≡ is_near range v tolerance }
{
    let lowest = range.lowest as u64;
    let highest = range.highest as u64;
    lowest.saturating_sub(v) <= tolerance && v.saturating_sub(highest) <= tolerance
}
