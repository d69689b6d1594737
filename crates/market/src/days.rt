// The records 300 and 400.
ghost use Rattle.std.specs.Prelude.{cond, [], ◌≡◌, ℕ, ◌+◌, ◌*◌, ◌≤◌, ◌<◌, length};
ghost use Rattle.calendar.specs.Calendar.{day_count};
ghost use Rattle.file.specs.Reader.{slot_at};
ghost use Rattle.market.specs.declared.marks.Mark.{Mark};
ghost use Rattle.market.specs.Fields.{field, joined, kwh, date_field, mark_of};
ghost use Rattle.market.specs.Records.{record300, record400, runs, day_records, days_of};
ghost use Rattle.file.specs.Inner.Reading.{Tabled};
ghost use Rattle.line.specs.Inner.Writing.{Added};

use crate::marks::Mark;
use crate::writing::{put_field, put_number};
use crate::{Codes, Texts, marks};
use file::fields;
use line::writing::{put_digits, put_text};

// The day `number` has the slots from slot `from` on.
#[derive(Clone, Copy)]
pub struct Day {
    pub number: u32,
    pub from: usize,
    pub slots: usize,
}

// The value of slot `i` as a field.
fn put_value(out: &mut [u8], at: usize, file: &[u8], i: usize) -> usize
    requires { 6 * (i + 1) ≤ length file.now }
    ensures { Added out.old at out.new result (field (kwh (slot_at file.now i).value)) }
{
    let value = fields::number(file, 6 * i, 4);
    let whole = put_number(out, at, value / 1000);
    let point = put_text(out, whole, b".");
    put_digits(out, point, 3, value)
}

// The values of the `k` slots from slot `a`.
fn put_values(out: &mut [u8], at: usize, file: &[u8], a: usize, k: usize) -> usize
    requires { 6 * (a + k) ≤ length file.now }
    ensures { (let value : ℕ → ℕ = λ i. (slot_at file.now i).value in
        Added out.old at out.new result (joined (λ i. field (kwh (value i))) a k)) }
{
    let mut next = at;
    for i in 0..k {
        next = put_value(out, next, file, a + i);
    }
    next
}

fn put_date(out: &mut [u8], at: usize, number: u32) -> usize
    requires { number < day_count }
    ensures { Added out.old at out.new result (date_field number) }
{
    let date = calendar::date_of(number);
    let year = put_digits(out, at, 4, date.year as u64);
    let month = put_digits(out, year, 2, date.month as u64);
    put_digits(out, month, 2, date.day as u64)
}

// 300,IntervalDate,values,QualityMethod,ReasonCode,ReasonDescription,UpdateDateTime,MSATSLoadDateTime
fn put_300(out: &mut [u8], at: usize, file: &[u8], day: Day, mark: Mark, texts: &Texts) -> usize
    requires { (6 * (day.from + day.slots) ≤ length file.now) × (day.number < day_count) }
    ensures { (let value : ℕ → ℕ = λ i. (slot_at file.now i).value in
        let text = record300 texts.now.reason.now texts.now.created.now day.number value day.from day.slots mark in
        Added out.old at out.new result text) }
{
    let code = put_text(out, at, b"300,");
    let date = put_date(out, code, day.number);
    let values = put_values(out, date, file, day.from, day.slots);
    let quality = marks::put_mark(out, values, mark, texts.reason);
    let time = put_field(out, quality, texts.created);
    put_text(out, time, b",\r\n")
}

// 400,StartInterval,EndInterval,QualityMethod,ReasonCode,ReasonDescription
fn put_400(out: &mut [u8], at: usize, start: usize, end: usize, mark: Mark, reason: &[u8]) -> usize
    ensures { Added out.old at out.new result (record400 reason.now start end mark) }
{
    let code = put_text(out, at, b"400");
    let first = put_number(out, code, start as u64);
    let last = put_number(out, first, end as u64);
    let quality = marks::put_mark(out, last, mark, reason);
    put_text(out, quality, b"\r\n")
}

// The 400 of a run that ends here.
fn put_run(
    out: &mut [u8],
    at: usize,
    ends: bool,
    start: usize,
    end: usize,
    mark: Mark,
    reason: &[u8],
) -> usize
    ensures { Added out.old at out.new result (cond ends (record400 reason.now start end mark) []) }
{
    if !ends {
        return at;
    }
    put_400(out, at, start, end, mark, reason)
}

// Behind an end the next run starts.
fn next_start(ends: bool, start: usize, next: usize) -> usize
    ensures { result ≡ cond ends next start }
{
    if ends { next } else { start }
}

// A 400 for each longest run of slots alike, of the `n` slots from slot `a`.
fn put_runs(
    out: &mut [u8],
    at: usize,
    file: &[u8],
    codes: Codes,
    a: usize,
    n: usize,
    reason: &[u8],
) -> usize
    requires { 6 * (a + n) ≤ length file.now }
    ensures { (let marks : ℕ → Mark = λ i. mark_of codes (slot_at file.now i) in
        Added out.old at out.new result (runs reason.now marks a n)) }
{
    let mut next = at;
    let mut start = 0;
    for j in 0..n {
        let ends = marks::ends_run(file, codes, a, n, j);
        let mark = marks::mark_at(file, codes, a + j);
        next = put_run(out, next, ends, start + 1, j + 1, mark, reason);
        start = next_start(ends, start, j + 1);
    }
    next
}

// A day's 300 and 400s.
fn put_day(out: &mut [u8], at: usize, file: &[u8], codes: Codes, day: Day, texts: &Texts) -> usize
    requires { (6 * (day.from + day.slots) ≤ length file.now) × (1 ≤ day.slots) × (day.number < day_count) }
    ensures { (let value : ℕ → ℕ = λ i. (slot_at file.now i).value in
        let marks : ℕ → Mark = λ i. mark_of codes (slot_at file.now i) in
        let text = day_records texts.now.reason.now texts.now.created.now day.number value marks day.from day.slots in
        Added out.old at out.new result text) }
{
    let one = marks::are_all_alike(file, codes, day.from, day.slots);
    let mark = marks::day_mark(file, codes, day.from, one);
    let next = put_300(out, at, file, day, mark, texts);
    if one {
        return next;
    }
    put_runs(out, next, file, codes, day.from, day.slots, texts.reason)
}

// The records of `days` days of `n` slots from day `first` on.
pub fn put_days(
    out: &mut [u8],
    at: usize,
    file: &[u8],
    codes: Codes,
    first: u32,
    n: usize,
    days: u32,
    texts: &Texts,
) -> usize
    requires { Tabled file.now n days × (first + days ≤ day_count) }
    ensures { (let value : ℕ → ℕ = λ i. (slot_at file.now i).value in
        let marks : ℕ → Mark = λ i. mark_of codes (slot_at file.now i) in
        Added out.old at out.new result (days_of texts.now.reason.now texts.now.created.now first value marks n days)) }
{
    let mut next = at;
    for d in 0..days {
        let day = Day {
            number: first + d,
            from: d as usize * n,
            slots: n,
        };
        next = put_day(out, next, file, codes, day, texts);
    }
    next
}
