// The export that explains a slot, its fields as numbers.
ghost use Rattle.std.specs.Prelude.{◌≡◌};
ghost use Rattle.book.specs.Lent.{lent_book};
ghost use Rattle.file.specs.Layout.{letter};
ghost use Rattle.host.specs.Codes.{head_of};
ghost use Rattle.questions.specs.Follow.{cause_code, rule_code, line_in, found_in, fields_of, explain_code, fields_after};

use base::Refusal;
use book::Book;
use explain::{Explanation, Rule, Shares, Spanned};
use host::head_of;
use rules::filling::References;
use rules::linear::StraightLine;
use rules::tests::Cause;
use rules::{Quality, linear, opening};

// What does not apply is written as false and 0.
const NO_SPAN: Spanned = Spanned {
    first: 0,
    last: 0,
    lowest: 0,
    highest: 0,
    advance: 0,
    actual: 0,
    state: 0,
};

const NO_SHARES: Shares = Shares {
    t: 0,
    whole: 0,
    passed: 0,
    reached: 0,
};

fn cause_code(cause: Option<Cause>) -> u64
    ensures { result ≡ cause_code cause }
{
    match cause {
        None => 0,
        Some(Cause::Gap) => 1,
        Some(Cause::TimeChange) => 2,
        Some(Cause::Partial) => 3,
        Some(Cause::Demand) => 4,
    }
}

// A good slot 0, the others as 01 numbers them, agreed by its method.
fn rule_code(rule: Rule) -> u64
    ensures { result ≡ rule_code rule }
{
    match rule {
        Rule::Delivered => 0,
        Rule::Agreed => 5,
        Rule::OutageZero => 1,
        Rule::Linear(_) => 2,
        Rule::SameDay(_) => 3,
        Rule::Nothing => 4,
    }
}

fn line_in(rule: Rule) -> StraightLine
    ensures { result ≡ line_in rule }
{
    match rule {
        Rule::Linear(line) => line,
        _ => linear::bare(0),
    }
}

fn found_in(rule: Rule) -> References
    ensures { result ≡ found_in rule }
{
    match rule {
        Rule::SameDay(found) => found,
        _ => References {
            days: [0; 4],
            values: [0; 4],
            count: 0,
        },
    }
}

fn letter_of(quality: Quality) -> u64
    ensures { result ≡ letter quality }
{
    match quality {
        Quality::A => 65,
        Quality::S => 83,
        Quality::F => 70,
        Quality::N => 78,
    }
}

// In the order of 01.
fn fields_of(e: Explanation) -> [u64; 34]
    ensures { result ≡ fields_of e }
{
    let filled = e.filled;
    let line = line_in(e.rule);
    let found = found_in(e.rule);
    let span = e.span.unwrap_or(NO_SPAN);
    let shares = e.shares.unwrap_or(NO_SHARES);
    let outcome = e.outcome;
    [
        cause_code(e.cause),
        rule_code(e.rule),
        u64::from(filled.value),
        letter_of(filled.quality),
        u64::from(filled.method),
        u64::from(line.left),
        u64::from(line.right),
        u64::from(line.place),
        u64::from(line.length),
        found.count as u64,
        u64::from(found.days[0]),
        u64::from(found.days[1]),
        u64::from(found.days[2]),
        u64::from(found.days[3]),
        u64::from(found.values[0]),
        u64::from(found.values[1]),
        u64::from(found.values[2]),
        u64::from(found.values[3]),
        u64::from(e.span.is_some()),
        u64::from(span.first),
        u64::from(span.last),
        u64::from(span.lowest),
        u64::from(span.highest),
        span.advance,
        span.actual,
        u64::from(span.state),
        u64::from(e.shares.is_some()),
        shares.t,
        shares.whole,
        shares.passed,
        shares.reached,
        u64::from(outcome.value),
        letter_of(outcome.quality),
        u64::from(outcome.method),
    ]
}

// 0 and the 34 fields, or the refusal's number; 2 also for a list of fields that is not 34 long.
pub fn sawmauve_explain(
    year: u32,
    month: u32,
    day: u32,
    days: u32,
    interval: u32,
    limit: u32,
    tolerance: u32,
    values: &[u32],
    versions: &[u32],
    statuses: &[u8],
    holidays: &[u8],
    readings: &[u32],
    read_versions: &[u32],
    agreed: &[u32],
    agreed_versions: &[u32],
    counts: &[u16],
    widths: &[u16],
    slot: u32,
    fields: &mut [u64],
) -> u32
    ensures { let head = head_of year month day days interval limit tolerance in
        let book = lent_book values.now versions.now statuses.now holidays.now readings.now read_versions.now
        agreed.now agreed_versions.now counts.now widths.now in
        (result ≡ explain_code head book slot fields.old)
        × (fields.new ≡ fields_after head book slot fields.old) }
{
    let head = head_of(year, month, day, days, interval, limit, tolerance);
    if !opening::head_ok(head) {
        return Refusal::OutsideBounds.number() as u32;
    }
    if fields.len() != 34 {
        return Refusal::WrongLength.number() as u32;
    }
    let book = Book::of(
        values,
        versions,
        statuses,
        holidays,
        readings,
        read_versions,
        agreed,
        agreed_versions,
        counts,
        widths,
    );
    match explain::explain(head, &book, slot) {
        Ok(explanation) => {
            fields.copy_from_slice(&fields_of(explanation));
            0
        }
        Err(refusal) => refusal.number() as u32,
    }
}
