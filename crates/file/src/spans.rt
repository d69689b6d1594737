// The span table: its records, their states, and what lies outside the spans.
ghost use Rattle.std.specs.Prelude.{◌≡◌, true, false, [], ◌∷◌, ◌+◌, ◌-◌, ◌*◌, ◌<◌, ◌≤◌, eqb, leb, ltb, length};
ghost use Rattle.base.specs.Numbers.{eight_digits};
ghost use Rattle.base.specs.Lists.{every, all, implies};
ghost use Rattle.file.specs.Layout.{ranged};
ghost use Rattle.file.specs.Reader.{read_span, span_at, file_slots, tables_at, in_range, state_rule, span_ok, state_ok, outside_ok};
ghost use Rattle.file.specs.Inner.Reading.{Ready};

use crate::{Figures, fields, slots, trailer};

// A record of the span table; `blank` is its last byte.
#[derive(Clone, Copy)]
pub struct SpanRecord {
    pub first: u32,
    pub last: u32,
    pub lowest: u32,
    pub highest: u32,
    pub state: u8,
    pub blank: u8,
}

// The record of layouts 1 and 2 from `p`: R is its lowest and its highest advance.
fn exact_from(file: &[u8], p: usize) -> SpanRecord
    requires { p + 10 ≤ length file.now }
    ensures { result ≡ read_span false file.now p }
{
    let advance = fields::number(file, p + 4, 4) as u32;
    SpanRecord {
        first: fields::number(file, p, 2) as u32,
        last: fields::number(file, p + 2, 2) as u32,
        lowest: advance,
        highest: advance,
        state: file[p + 8],
        blank: file[p + 9],
    }
}

// The record of layout 3 from `p`.
fn ranged_from(file: &[u8], p: usize) -> SpanRecord
    requires { p + 14 ≤ length file.now }
    ensures { result ≡ read_span true file.now p }
{
    SpanRecord {
        first: fields::number(file, p, 2) as u32,
        last: fields::number(file, p + 2, 2) as u32,
        lowest: fields::number(file, p + 4, 4) as u32,
        highest: fields::number(file, p + 8, 4) as u32,
        state: file[p + 12],
        blank: file[p + 13],
    }
}

// lowest ≤ highest ≤ 99,999,999, state 0 to 3, last byte zero.
fn fields_ok(s: SpanRecord) -> bool
    ensures { result ≡ every (leb s.lowest s.highest ∷ leb s.highest eight_digits ∷ leb s.state 3 ∷ eqb s.blank 0 ∷ []) }
{
    s.lowest <= s.highest && s.highest <= base::EIGHT_DIGITS && s.state <= 3 && s.blank == 0
}

// A span of this state whose slots are so.
fn state_rule(
    state: u8,
    none: bool,
    scaled: bool,
    unscaled: bool,
    substituted: bool,
    in_range: bool,
) -> bool
    ensures { result ≡ every (state_rule state none scaled unscaled substituted in_range) }
{
    match state {
        0 => !none && !scaled && !substituted,
        1 => !none && scaled && !unscaled && in_range,
        2 => none && !scaled,
        _ => !none && !scaled,
    }
}

// The sum is an advance of the range.
fn is_within(lowest: u32, sum: u64, highest: u32) -> bool
    ensures { result ≡ in_range lowest sum highest }
{
    lowest as u64 <= sum && sum <= highest as u64
}

// A file that is not refused with 8, and its trailer's figures.
#[derive(Clone, Copy)]
pub struct Framed<'a> {
    pub bytes: &'a [u8],
    pub figures: Figures,
    ghost ready: { Ready bytes.now figures },
}

impl Framed<'_> {
    fn span_at(&self, j: usize) -> SpanRecord
        requires { j < self.now.figures.spans }
        ensures { result ≡ span_at (ranged self.now.figures.layout) self.now.bytes.now (6 * file_slots self.now.figures) j }
    {
        let table = 6 * trailer::slot_count(self.figures);
        if self.figures.layout == 3 {
            return ranged_from(self.bytes, table + 14 * j);
        }
        exact_from(self.bytes, table + 10 * j)
    }

    // Span `j`, which begins at `first`, is the first one or begins where the one before ended.
    fn follows(&self, j: usize, first: u32) -> bool
        requires { j < self.now.figures.spans }
        ensures { let g = self.now.figures in
            let before = span_at (ranged g.layout) self.now.bytes.now (6 * file_slots g) (j - 1) in
            result ≡ implies (ltb 0 j) (eqb first before.last) }
    {
        j == 0 || first == self.span_at(j - 1).last
    }

    #[tactic(auto, unfolding(crate::specs::Reader::span_ok))]
    fn span_ok(&self, j: usize) -> bool
        requires { j < self.now.figures.spans }
        ensures { result ≡ span_ok (tables_at self.now.bytes.now self.now.figures) j }
    {
        let s = self.span_at(j);
        s.first < s.last && s.last <= self.figures.days && self.follows(j, s.first) && fields_ok(s)
    }

    #[tactic(auto, using(base::proofs::Sums::all_more, base::proofs::Sums::all_fails, base::proofs::Sums::all_done))]
    pub fn spans_ok(&self) -> bool
        ensures { result ≡ all (span_ok (tables_at self.now.bytes.now self.now.figures)) 0 self.now.figures.spans }
    {
        for j in 0..self.figures.spans as usize {
            if !self.span_ok(j) {
                return false;
            }
        }
        true
    }

    // Span `j` has the state that its slots allow.
    fn state_ok(&self, j: usize) -> bool
        requires { (j < self.now.figures.spans) × (span_ok (tables_at self.now.bytes.now self.now.figures) j ≡ true) }
        ensures { result ≡ state_ok (tables_at self.now.bytes.now self.now.figures) j }
    {
        let s = self.span_at(j);
        let n = trailer::per_day(self.figures);
        let a = s.first as usize * n;
        let k = (s.last - s.first) as usize * n;
        let found = slots::tally_of(self.bytes, a, k);
        state_rule(
            s.state,
            found.none,
            found.scaled,
            found.unscaled,
            found.substituted,
            is_within(s.lowest, found.sum, s.highest),
        )
    }

    #[tactic(auto, using(base::proofs::Sums::all_more, base::proofs::Sums::all_fails, base::proofs::Sums::all_done))]
    pub fn states_ok(&self) -> bool
        requires { all (span_ok (tables_at self.now.bytes.now self.now.figures)) 0 self.now.figures.spans ≡ true }
        ensures { result ≡ all (state_ok (tables_at self.now.bytes.now self.now.figures)) 0 self.now.figures.spans }
    {
        for j in 0..self.figures.spans as usize {
            if !self.state_ok(j) {
                return false;
            }
        }
        true
    }

    // No method 18 or 19 outside spans. These follow each other, so outside is before the first and after the last.
    pub fn outside_ok(&self) -> bool
        requires { all (span_ok (tables_at self.now.bytes.now self.now.figures)) 0 self.now.figures.spans ≡ true }
        ensures { result ≡ all (outside_ok (tables_at self.now.bytes.now self.now.figures)) 0 (file_slots self.now.figures) }
    {
        let slots = trailer::slot_count(self.figures);
        let m = self.figures.spans as usize;
        if m == 0 {
            return !slots::has_scaled(self.bytes, 0, slots);
        }
        let n = trailer::per_day(self.figures);
        let first = self.span_at(0);
        let start = first.first as usize * n;
        if slots::has_scaled(self.bytes, 0, start) {
            return false;
        }
        let last = self.span_at(m - 1);
        let end = last.last as usize * n;
        !slots::has_scaled(self.bytes, end, slots - end)
    }
}
