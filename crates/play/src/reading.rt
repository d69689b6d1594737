// What the bytes of a log are: its lines up to the opening, and those after it.
ghost use Rattle.std.specs.Prelude.{◌≡◌, suc, ◌<◌, length, drop};
ghost use Rattle.rules.specs.Limits.{load_answer};
ghost use Rattle.text_log.specs.Log.{table_of, item_in, items, read_open, or_built_in};
ghost use Rattle.text_log.specs.Log.Item.{table as table_item};
ghost use Rattle.play.specs.declared.reading.Wrong.TheVariants.{Refused as refused};
ghost use Rattle.play.specs.Playing.{checked_of};
ghost use Rattle.play.specs.Inner.Steps.{head_step, opening_step, step_of, table_after, in_line, OpeningMeant};
ghost use Rattle.play.specs.Inner.Steps.{calls_at, TestedAt, Reached};

use crate::{Log, NotALog};
use base::Refusal;
use rules::{Head, limits as demand, opening};
use text_log::limits::Limits;
use text_log::line::{Entry, LogLine, Opening};
use text_log::{deliveries, limits, line, lines};

// Why a line cannot stand in front of the opening.
#[derive(Clone, Copy)]
pub enum Wrong {
    NotACall,
    Refused(Refusal),
}

impl Wrong {
    fn in_line(self, n: usize) -> NotALog
        ensures { result ≡ in_line self n }
    {
        match self {
            Wrong::NotACall => NotALog::NotACall(n),
            Wrong::Refused(refusal) => NotALog::Refused(n, refusal),
        }
    }
}

impl From<Refusal> for Wrong {
    ghost from_gives = { λ refusal wrong. wrong ≡ refused refusal };

    fn from(refusal: Refusal) -> Wrong {
        Wrong::Refused(refusal)
    }
}

// The opening's head, the place after its line, and how many lines there are up to it.
#[derive(Clone, Copy)]
pub struct Opened {
    pub head: Head,
    pub at: usize,
    pub lines: usize,
}

// The limit at a place of the table, which has none in front of the first.
fn limit_at(table: Limits, kind: u32) -> Result<u32, Refusal>
    ensures { result ≡ load_answer (or_built_in (table_of table)) kind }
{
    if table.count == 0 {
        let built_in = [40000u32, 70000];
        return demand::load(&built_in, kind);
    }
    limits::load_from(table, kind)
}

// What a line in front of the opening comes to: the head of an opening, or nothing yet.
#[tactic(auto, unfolding(crate::specs::Inner::Steps::head_step))]
fn head_step(head: Head) -> Result<Option<Head>, Wrong>
    ensures { result ≡ head_step head }
{
    if opening::head_ok(head) {
        return Ok(Some(head));
    }
    Err(Wrong::Refused(Refusal::OutsideBounds))
}

#[tactic(auto, unfolding(crate::specs::Inner::Steps::opening_step))]
fn opening_step(table: Limits, opening: Opening) -> Result<Option<Head>, Wrong>
    ensures { result ≡ opening_step opening (load_answer (or_built_in (table_of table)) opening.kind) }
{
    let limit = limit_at(table, opening.kind)?;
    head_step(line::head_with(opening, limit))
}

fn table_step(table: Limits, limits: Limits) -> Result<Option<Head>, Wrong>
    ensures { result ≡ step_of (table_of table) (table_item (table_of limits)) }
{
    if table.count != 0 {
        return Err(Wrong::NotACall);
    }
    limits::load_from(limits, 1)?;
    Ok(None)
}

#[tactic(auto, using(crate::proofs::Stepping::step_cases), unfolding(text_log::specs::Log::item_in))]
fn step_of(table: Limits, entry: Entry) -> Result<Option<Head>, Wrong>
    ensures { result ≡ step_of (table_of table) (item_in entry.line entry.limits) }
{
    match entry.line {
        LogLine::Passed => Ok(None),
        LogLine::Table => table_step(table, entry.limits),
        LogLine::Open(opening) => opening_step(table, opening),
        LogLine::Fill(_) | LogLine::NoCall => Err(Wrong::NotACall),
    }
}

#[tactic(auto, using(crate::proofs::Stepping::kept), unfolding(crate::specs::Inner::Steps::table_after, text_log::specs::Log::item_in))]
fn table_after(table: Limits, entry: Entry) -> Limits
    ensures { table_of result ≡ table_after (table_of table) (item_in entry.line entry.limits) }
{
    match entry.line {
        LogLine::Table => entry.limits,
        _ => table,
    }
}

// The lines up to the opening: those that are passed over, and one table.
pub fn find_opening(log: &[u8]) -> Result<Opened, NotALog>
    ensures { OpeningMeant log.now result }
{
    let mut table = limits::none();
    let mut at = 0;
    let mut n = 0;
    // no `for`: where a line ends is found as it is read
    while at < log.len() {
        let cut = lines::line_at(log, at);
        let end = cut.end;
        let entry = line::entry_of(&log[at..end]);
        at = cut.next;
        n += 1;
        match step_of(table, entry) {
            Ok(None) => table = table_after(table, entry),
            Ok(Some(head)) => return Ok(Opened { head, at, lines: n }),
            Err(wrong) => return Err(wrong.in_line(n)),
        }
    }
    Err(NotALog::NoOpening)
}

// How many calls a line is that can stand after the opening.
fn calls_at(line: LogLine) -> Option<usize>
    ensures { result ≡ calls_at line }
{
    match line {
        LogLine::Passed => Some(0),
        LogLine::Fill(_) => Some(1),
        LogLine::Table | LogLine::Open(_) | LogLine::NoCall => None,
    }
}

// How many calls such a line is, and where the next one begins.
#[derive(Clone, Copy)]
pub struct TestedLine {
    pub calls: usize,
    pub next: usize,
}

// The line that begins at `at`, where it can stand after the opening: nearly every one is a delivery.
fn tested_at(log: &[u8], at: usize) -> Option<TestedLine>
    requires { at < length log.now }
    ensures { TestedAt log.now at result }
{
    if let Some(next) = deliveries::delivery_end(log, at) {
        return Some(TestedLine { calls: 1, next });
    }
    let found = lines::read_from(log, at);
    let calls = calls_at(found.line)?;
    Some(TestedLine {
        calls,
        next: found.next,
    })
}

// The lines after the opening.
pub fn following(log: &[u8], opening: Opened) -> Result<Log, NotALog>
    requires { Reached log.now opening.at opening.lines 0 }
    ensures { result ≡ checked_of log.now (read_open opening.head (suc opening.lines) (items (drop opening.at log.now))) }
{
    let Opened {
        head,
        mut at,
        mut lines,
    } = opening;
    let mut calls = 0;
    // no `for`, as in `find_opening`
    while at < log.len() {
        lines += 1;
        let Some(line) = tested_at(log, at) else {
            return Err(NotALog::NotACall(lines));
        };
        calls += line.calls;
        at = line.next;
    }
    Ok(Log { head, lines, calls })
}
