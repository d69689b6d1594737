// The line that is written of a file (01, The published file: 'A program reads a file'), put into a lent buffer.
#![tactic(auto)]

pub mod writing;

ghost use Rattle.std.specs.Prelude.{◌≡◌, ◌++◌, ◌<◌};
ghost use Rattle.base.specs.Refusals.{number_of};
ghost use Rattle.calendar.specs.Calendar.{day_count};
ghost use Rattle.line.specs.Line.{date_text, field, head_text, counts_text, figures_text, refused, newline, line as Line·line};
ghost use Rattle.line.specs.Line.{AtStart, figures_answer, figures_after, line_answer, line_after};
ghost use Rattle.line.specs.Inner.Writing.{Added};

use base::Refusal;
use calendar::Date;
use file::Figures;
use writing::{put_decimal, put_digits, put_text};

// The longest file whose line is written.
const MOST_BYTES: usize = 65_536;

// A space and a number.
fn put_field(out: &mut [u8], at: usize, n: u64) -> usize
    ensures { Added out.old at out.new result (field n) }
{
    let from = put_text(out, at, b" ");
    put_decimal(out, from, n)
}

// Puts a space and `n` at the start of `out`, and answers their length.
pub fn number(n: u64, out: &mut [u8; 21]) -> usize
    ensures { AtStart out.old out.new result (field n) }
{
    put_field(out, 0, n)
}

// A date, at the start.
fn put_date(out: &mut [u8], date: Date) -> usize
    ensures { Added out.old 0 out.new result (date_text date) }
{
    let year = put_digits(out, 0, 4, date.year as u64);
    let first = put_text(out, year, b"-");
    let month = put_digits(out, first, 2, date.month as u64);
    let second = put_text(out, month, b"-");
    put_digits(out, second, 2, date.day as u64)
}

// The first day, D and L, at the start.
fn put_head(out: &mut [u8], g: Figures) -> usize
    requires { g.first < day_count }
    ensures { Added out.old 0 out.new result (head_text g) }
{
    let date = put_date(out, calendar::date_of(g.first));
    let days = put_field(out, date, g.days as u64);
    put_field(out, days, g.interval as u64)
}

// The counts of A, S and N slots.
fn put_counts(out: &mut [u8], at: usize, g: Figures) -> usize
    ensures { Added out.old at out.new result (counts_text g) }
{
    let actual = put_field(out, at, g.actual as u64);
    let substituted = put_field(out, actual, g.substituted as u64);
    put_field(out, substituted, g.none as u64)
}

// A file's figures, at the start.
fn put_line(out: &mut [u8], g: Figures) -> usize
    requires { g.first < day_count }
    ensures { Added out.old 0 out.new result (figures_text g) }
{
    let head = put_head(out, g);
    let counts = put_counts(out, head, g);
    put_field(out, counts, g.sum)
}

// The line of a file's figures.
fn put_figures(out: &mut [u8], g: Figures) -> usize
    requires { g.first < day_count }
    ensures { Added out.old 0 out.new result (figures_text g ++ newline) }
{
    let end = put_line(out, g);
    put_text(out, end, b"\n")
}

// The line of a refused file.
fn put_refusal(out: &mut [u8], refusal: Refusal) -> usize
    ensures { Added out.old 0 out.new result (refused ++ field (number_of refusal) ++ newline) }
{
    let word = put_text(out, 0, b"refused");
    let end = put_field(out, word, refusal.number() as u64);
    put_text(out, end, b"\n")
}

// Puts the line of `bytes` at the start of `out`, and answers its length.
pub fn line(bytes: &[u8], out: &mut [u8; 160]) -> usize
    ensures { AtStart out.old out.new result (Line·line bytes.now) }
{
    if MOST_BYTES < bytes.len() {
        return put_text(out, 0, b"too long\n");
    }
    match file::read(bytes) {
        Ok(g) => put_figures(out, g),
        Err(refusal) => put_refusal(out, refusal),
    }
}

// The figures of an accepted file, where they have room.
fn fit_line(out: &mut [u8], g: Figures) -> Result<usize, Refusal>
    requires { g.first < day_count }
    ensures { (result ≡ figures_answer g out.old)
        × (out.new ≡ figures_after g out.old) }
{
    let mut aside = [0u8; 1];
    let n = put_line(&mut aside, g);
    if out.len() < n {
        return Err(Refusal::ShortBuffer);
    }
    Ok(put_line(out, g))
}

// Puts the line of a file of any length, without a line end, at the start of `out`.
pub fn file_line(bytes: &[u8], out: &mut [u8]) -> Result<usize, Refusal>
    ensures { (result ≡ line_answer bytes.now out.old)
        × (out.new ≡ line_after bytes.now out.old) }
{
    let g = file::read(bytes)?;
    fit_line(out, g)
}
