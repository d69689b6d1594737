// Records and the trailer, written into a lent buffer.
ghost use Rattle.std.specs.Prelude.{true, ◌≡◌, ◌+◌, ◌≤◌, length, take, drop};
ghost use Rattle.file.specs.Layout.{letter, row, slot_row, span_row, trailer_row};
ghost use Rattle.file.specs.Inner.Writing.{written};

use crate::{Figures, fields, trailer};
use rules::{Outcome, Quality, Span};

fn letter_of(quality: Quality) -> u8
    ensures { result ≡ letter quality }
{
    match quality {
        Quality::A => b'A',
        Quality::S => b'S',
        Quality::F => b'F',
        Quality::N => b'N',
    }
}

// Writes a slot record at `at`.
pub fn put_slot(buf: &mut [u8], at: usize, slot: Outcome)
    requires { at + 6 ≤ length buf.old }
    ensures { buf.new ≡ written buf.old at (row (slot_row slot)) }
{
    fields::put(buf, at, 4, slot.value as u64);
    fields::put(buf, at + 4, 1, letter_of(slot.quality) as u64);
    fields::put(buf, at + 5, 1, slot.method as u64);
}

// Writes a span's boundaries and the ends of its advance at `at`.
fn put_range(buf: &mut [u8], at: usize, span: Span)
    requires { at + 12 ≤ length buf.old }
    ensures { buf.new ≡ written buf.old at (row (take 4 (span_row true span))) }
{
    fields::put(buf, at, 2, span.first as u64);
    fields::put(buf, at + 2, 2, span.last as u64);
    fields::put(buf, at + 4, 4, span.lowest as u64);
    fields::put(buf, at + 8, 4, span.highest as u64);
}

// Writes a span record of layout 3 at `at`.
pub fn put_span(buf: &mut [u8], at: usize, span: Span)
    requires { at + 14 ≤ length buf.old }
    ensures { buf.new ≡ written buf.old at (row (span_row true span)) }
{
    put_range(buf, at, span);
    fields::put(buf, at + 12, 1, span.state as u64);
    fields::put(buf, at + 13, 1, 0);
}

// Writes the trailer's first day, D and L at `at`.
fn put_days(buf: &mut [u8], at: usize, g: Figures)
    requires { at + 5 ≤ length buf.old }
    ensures { buf.new ≡ written buf.old at (row (take 3 (trailer_row g))) }
{
    fields::put(buf, at, 2, g.first as u64);
    fields::put(buf, at + 2, 2, g.days as u64);
    fields::put(buf, at + 4, 1, g.interval as u64);
}

// Writes the trailer's head fields at `at`: first day, D, L, layout, M.
fn put_head(buf: &mut [u8], at: usize, g: Figures)
    requires { at + 8 ≤ length buf.old }
    ensures { buf.new ≡ written buf.old at (row (take 5 (trailer_row g))) }
{
    put_days(buf, at, g);
    fields::put(buf, at + 5, 1, g.layout as u64);
    fields::put(buf, at + 6, 2, g.spans as u64);
}

// Writes the rest of the trailer at `at`: the counts, the sum and the distance.
fn put_counts(buf: &mut [u8], at: usize, g: Figures)
    requires { at + 24 ≤ length buf.old }
    ensures { buf.new ≡ written buf.old at (row (drop 5 (trailer_row g))) }
{
    fields::put(buf, at, 4, g.actual as u64);
    fields::put(buf, at + 4, 4, g.substituted as u64);
    fields::put(buf, at + 8, 4, g.none as u64);
    fields::put(buf, at + 12, 8, g.sum);
    fields::put(buf, at + 20, 4, trailer::span_bytes(g));
}

// Writes the trailer at `at`.
pub fn put_trailer(buf: &mut [u8], at: usize, g: Figures)
    requires { at + 32 ≤ length buf.old }
    ensures { buf.new ≡ written buf.old at (row (trailer_row g)) }
{
    put_head(buf, at, g);
    put_counts(buf, at + 8, g);
}
