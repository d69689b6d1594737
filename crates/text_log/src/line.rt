// One line of a log: passed over, a table of limits, a call, or neither.
ghost use Rattle.std.specs.Prelude.{◌≡◌};
ghost use Rattle.text_log.specs.Words.{words as words_of};
ghost use Rattle.text_log.specs.Line.{open_of, delivery_of, holiday_of, sharp_of, register_of, agreed_of, call_of};
ghost use Rattle.text_log.specs.Line.{without_cr, bare as bare_of, limits_entry, words_entry, entry_of};
ghost use Rattle.text_log.specs.Log.{head_with};
ghost use Rattle.text_log.specs.Inner.Parsing.{words_left};

use crate::limits::Limits;
use crate::number::Date;
use crate::{limits, number, pieces, words};
use book::calls::Call;
use rules::Head;

// The figures of an opening. Its kind is a place in a table of demand limits.
#[derive(Clone, Copy)]
pub struct Opening {
    pub year: u32,
    pub month: u32,
    pub day: u32,
    pub days: u32,
    pub interval: u32,
    pub kind: u32,
    pub tolerance: u32,
}

// What a line is.
#[derive(Clone, Copy)]
pub enum LogLine {
    Passed,
    Table,
    Open(Opening),
    Fill(Call),
    NoCall,
}

// A line, and the table where it is one.
#[derive(Clone, Copy)]
pub struct Entry {
    pub line: LogLine,
    pub limits: Limits,
}

// The words left behind a keyword, in each of these.
fn open_after(rest: &[u8]) -> LogLine
    ensures { result ≡ open_of (words_left rest.now) }
{
    let Some((word, rest)) = words::next_word(rest) else {
        return LogLine::NoCall;
    };
    let Some(Date { year, month, day }) = number::date_of(word) else {
        return LogLine::NoCall;
    };
    let Some(fields) = words::values_in::<4>(rest) else {
        return LogLine::NoCall;
    };
    let [days, interval, kind, tolerance] = fields;
    LogLine::Open(Opening {
        year,
        month,
        day,
        days,
        interval,
        kind,
        tolerance,
    })
}

fn delivery_after(rest: &[u8]) -> LogLine
    ensures { result ≡ delivery_of (words_left rest.now) }
{
    let Some(fields) = words::values_in::<4>(rest) else {
        return LogLine::NoCall;
    };
    let [slot, version, value, status] = fields;
    LogLine::Fill(Call::Delivery {
        slot,
        version,
        value,
        status,
    })
}

fn holiday_after(rest: &[u8]) -> LogLine
    ensures { result ≡ holiday_of (words_left rest.now) }
{
    let Some(fields) = words::values_in::<1>(rest) else {
        return LogLine::NoCall;
    };
    let [day] = fields;
    LogLine::Fill(Call::Holiday(day))
}

// A register read without a width.
fn sharp_after(rest: &[u8]) -> LogLine
    ensures { result ≡ sharp_of (words_left rest.now) }
{
    let Some(fields) = words::values_in::<3>(rest) else {
        return LogLine::NoCall;
    };
    let [boundary, version, reading] = fields;
    LogLine::Fill(Call::Register {
        boundary,
        version,
        reading,
        width: 0,
    })
}

fn register_after(rest: &[u8]) -> LogLine
    ensures { result ≡ register_of (words_left rest.now) }
{
    let Some(fields) = words::values_in::<4>(rest) else {
        return sharp_after(rest);
    };
    let [boundary, version, reading, width] = fields;
    LogLine::Fill(Call::Register {
        boundary,
        version,
        reading,
        width,
    })
}

fn agreed_after(rest: &[u8]) -> LogLine
    ensures { result ≡ agreed_of (words_left rest.now) }
{
    let Some(fields) = words::values_in::<3>(rest) else {
        return LogLine::NoCall;
    };
    let [slot, version, value] = fields;
    LogLine::Fill(Call::Agreed {
        slot,
        version,
        value,
    })
}

fn call_of(line: &[u8]) -> LogLine
    ensures { result ≡ call_of (words_of line.now) }
{
    let (word, rest) = pieces::cut(line, b' ');
    if word == b"open".as_slice() {
        return open_after(rest);
    }
    if word == b"delivery".as_slice() {
        return delivery_after(rest);
    }
    if word == b"holiday".as_slice() {
        return holiday_after(rest);
    }
    if word == b"register".as_slice() {
        return register_after(rest);
    }
    if word == b"agreed".as_slice() {
        return agreed_after(rest);
    }
    LogLine::NoCall
}

// A line without its CR.
fn without_cr(bytes: &[u8]) -> &[u8]
    ensures { result.now ≡ without_cr bytes.now }
{
    match bytes {
        [line @ .., b'\r'] => line,
        _ => bytes,
    }
}

// A line with no table.
pub fn bare(line: LogLine) -> Entry
    ensures { result ≡ bare_of line }
{
    Entry {
        line,
        limits: limits::none(),
    }
}

// The words left behind `limits`.
fn limits_entry(rest: &[u8]) -> Entry
    ensures { result ≡ limits_entry (words_left rest.now) }
{
    match limits::limits_in(rest) {
        Some(limits) => Entry {
            line: LogLine::Table,
            limits,
        },
        None => bare(LogLine::NoCall),
    }
}

// Apart, so that an empty line or a comment does not pay for the words of others.
#[inline(never)]
fn words_entry(line: &[u8]) -> Entry
    ensures { result ≡ words_entry (words_of line.now) }
{
    let (word, rest) = pieces::cut(line, b' ');
    if word == b"limits".as_slice() {
        return limits_entry(rest);
    }
    bare(call_of(line))
}

// What the bytes of a line, without its LF, are.
pub fn entry_of(bytes: &[u8]) -> Entry
    ensures { result ≡ entry_of bytes.now }
{
    let line = without_cr(bytes);
    if line.is_empty() {
        return bare(LogLine::Passed);
    }
    if line[0] == b'#' {
        return bare(LogLine::Passed);
    }
    if 255 < line.len() {
        return bare(LogLine::NoCall);
    }
    words_entry(line)
}

// What the bytes of a line are, without the table of one.
pub fn line_of(bytes: &[u8]) -> LogLine
    ensures { result ≡ (entry_of bytes.now).line }
{
    entry_of(bytes).line
}

// The head of an opening with this demand limit.
pub fn head_with(opening: Opening, limit: u32) -> Head
    ensures { result ≡ head_with opening limit }
{
    let Opening {
        year,
        month,
        day,
        days,
        interval,
        tolerance,
        ..
    } = opening;
    Head {
        year,
        month,
        day,
        days,
        interval,
        limit,
        tolerance,
    }
}
