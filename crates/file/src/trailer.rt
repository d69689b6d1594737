// The trailer: its figures, and what is refused with 8.
ghost use Rattle.std.specs.Prelude.{◌≡◌, true, ◌*◌, ◌/◌, ◌≤◌, length};
ghost use Rattle.rules.specs.Numbers.{day_minutes, most_slots};
ghost use Rattle.base.specs.Lists.{every};
ghost use Rattle.file.specs.Layout.{span_table_bytes};
ghost use Rattle.file.specs.Reader.{figures, head_field_tests, layout_ok, file_slots, trailer_ok};

use crate::{Figures, fields};
use rules::opening;

// L, D and the first day are as under Opening.
fn head_ok(g: Figures) -> bool
    ensures { result ≡ every (head_field_tests g.first g.days g.interval) }
{
    opening::is_interval(g.interval)
        && 1 <= g.days
        && g.days <= rules::MOST_DAYS
        && g.first as u64 + g.days as u64 <= calendar::DAY_COUNT as u64
}

#[tactic(auto, unfolding(crate::specs::Reader::layout_ok))]
fn is_layout(layout: u32) -> bool
    ensures { result ≡ layout_ok layout }
{
    matches!(layout, 1 | 2 | 3)
}

// n, the slots of a day.
pub fn per_day(g: Figures) -> usize
    requires { every (head_field_tests g.first g.days g.interval) ≡ true }
    ensures { (result ≡ day_minutes / g.interval) × (result ≤ 288) }
{
    (rules::DAY_MINUTES / g.interval) as usize
}

// N, the slots of the book.
pub fn slot_count(g: Figures) -> usize
    requires { every (head_field_tests g.first g.days g.interval) ≡ true }
    ensures { (result ≡ file_slots g) × (result ≤ most_slots) }
{
    per_day(g) * g.days as usize
}

// The bytes of the span table: records of 14 bytes in layout 3, of 10 in the others.
pub fn span_bytes(g: Figures) -> u64
    ensures { (result ≡ span_table_bytes g) × (result ≤ 14 * g.spans) }
{
    let width = if g.layout == 3 { 14 } else { 10 };
    width * g.spans as u64
}

// The figures of the last 32 bytes.
pub fn figures_at(file: &[u8]) -> Figures
    requires { 32 ≤ length file.now }
    ensures { result ≡ figures file.now }
{
    let t = file.len() - 32;
    Figures {
        first: fields::number(file, t, 2) as u32,
        days: fields::number(file, t + 2, 2) as u32,
        interval: file[t + 4] as u32,
        spans: fields::number(file, t + 6, 2) as u32,
        actual: fields::number(file, t + 8, 4) as u32,
        substituted: fields::number(file, t + 12, 4) as u32,
        none: fields::number(file, t + 16, 4) as u32,
        sum: fields::number(file, t + 20, 8),
        layout: file[t + 5] as u32,
    }
}

// What is refused with 8 where it is false.
#[tactic(auto, unfolding(crate::specs::Reader::trailer_ok))]
pub fn trailer_ok(file: &[u8], g: Figures) -> bool
    requires { 32 ≤ length file.now }
    ensures { result ≡ trailer_ok file.now g }
{
    let t = file.len() - 32;
    let distance = fields::number(file, t + 28, 4);
    let back = span_bytes(g);
    head_ok(g)
        && is_layout(g.layout)
        && distance == back
        && file.len() as u64 == 6 * slot_count(g) as u64 + back + 32
}
