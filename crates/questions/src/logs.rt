// The exports of a whole log, and of one line of it.
ghost use Rattle.std.specs.Prelude.{◌≡◌, length};
ghost use Rattle.book.specs.Lent.{lent_book};
ghost use Rattle.play.specs.Playing.{checked, play_answer, play_after, answers_after};
ghost use Rattle.questions.specs.Logs.{why_code, check_code, check_line, log_figures, log_code, log_after, played_code};
ghost use Rattle.questions.specs.Logs.{call_code, call_fields, line_code, line_fields, one_code, one_fields};

use base::Refusal;
use book::calls::Call;
use book::lent::BookMut;
use play::{Log, NotALog, Unplayed};
use text_log::line::LogLine;

// The number of why bytes are no log.
fn why_code(why: NotALog) -> u32
    ensures { result ≡ why_code why }
{
    match why {
        NotALog::NoOpening => 104,
        NotALog::NotACall(_) => 105,
        NotALog::Refused(_, refusal) => refusal.number() as u32,
    }
}

// The nine figures of a log, and 0; else the number of why it is none.
fn tell_log(found: Result<Log, NotALog>, figures: &mut [u64]) -> u32
    requires { length figures.old ≡ 9 }
    ensures { (result ≡ check_code found) × (figures.new ≡ log_figures found figures.old) }
{
    match found {
        Ok(Log { head, lines, calls }) => {
            figures.copy_from_slice(&[
                u64::from(head.year),
                u64::from(head.month),
                u64::from(head.day),
                u64::from(head.days),
                u64::from(head.interval),
                u64::from(head.limit),
                u64::from(head.tolerance),
                lines as u64,
                calls as u64,
            ]);
            0
        }
        Err(why) => why_code(why),
    }
}

pub fn sawmauve_log(log: &[u8], figures: &mut [u64]) -> u32
    ensures { (result ≡ log_code log.now figures.old)
        × (figures.new ≡ log_after log.now figures.old) }
{
    if figures.len() != 9 {
        return Refusal::WrongLength.number() as u32;
    }
    let found = play::check(log);
    tell_log(found, figures)
}

fn line_number(found: Result<Log, NotALog>) -> u64
    ensures { result ≡ check_line found }
{
    match found {
        Ok(_) => 0,
        Err(NotALog::NoOpening) => 0,
        Err(NotALog::NotACall(line)) => line as u64,
        Err(NotALog::Refused(line, _)) => line as u64,
    }
}

pub fn sawmauve_log_line(log: &[u8]) -> u64
    ensures { result ≡ check_line (checked log.now) }
{
    line_number(play::check(log))
}

fn played_code(played: Result<Log, Unplayed>) -> u32
    ensures { result ≡ played_code played }
{
    match played {
        Ok(_) => 0,
        Err(Unplayed::NotALog(why)) => why_code(why),
        Err(Unplayed::Lengths) => Refusal::WrongLength.number() as u32,
    }
}

pub fn sawmauve_play<'a>(
    log: &[u8],
    values: &'a mut [u32],
    versions: &'a mut [u32],
    statuses: &'a mut [u8],
    holidays: &'a mut [u8],
    readings: &'a mut [u32],
    read_versions: &'a mut [u32],
    agreed: &'a mut [u32],
    agreed_versions: &'a mut [u32],
    counts: &'a mut [u16],
    widths: &'a mut [u16],
    answers: &mut [u8],
) -> u32
    ensures { let bytes = log.now in
        let book =
        lent_book values.old versions.old statuses.old holidays.old readings.old read_versions.old
        agreed.old agreed_versions.old counts.old widths.old in
        (result ≡ played_code (play_answer bytes book answers.old))
        × (lent_book values.new versions.new statuses.new holidays.new readings.new read_versions.new
        agreed.new agreed_versions.new counts.new widths.new
        ≡ play_after bytes book answers.old)
        × (answers.new ≡ answers_after bytes book answers.old) }
{
    let mut book = BookMut {
        values,
        versions,
        statuses,
        holidays,
        readings,
        read_versions,
        agreed,
        agreed_versions,
        counts,
        widths,
    };
    let played = play::play(log, &mut book, answers);
    played_code(played)
}

fn tell_call(call: Call, fields: &mut [u32]) -> u32
    requires { length fields.old ≡ 7 }
    ensures { (result ≡ call_code call) × (fields.new ≡ call_fields call) }
{
    match call {
        Call::Delivery {
            slot,
            version,
            value,
            status,
        } => {
            fields.copy_from_slice(&[slot, version, value, status, 0, 0, 0]);
            110
        }
        Call::Agreed {
            slot,
            version,
            value,
        } => {
            fields.copy_from_slice(&[slot, version, value, 0, 0, 0, 0]);
            111
        }
        Call::Holiday(day) => {
            fields.copy_from_slice(&[day, 0, 0, 0, 0, 0, 0]);
            112
        }
        Call::Register {
            boundary,
            version,
            reading,
            width,
        } => {
            fields.copy_from_slice(&[boundary, version, reading, width, 0, 0, 0]);
            113
        }
    }
}

fn tell_line(line: LogLine, fields: &mut [u32]) -> u32
    requires { length fields.old ≡ 7 }
    ensures { (result ≡ line_code line) × (fields.new ≡ line_fields line fields.old) }
{
    match line {
        LogLine::Passed => {
            fields.copy_from_slice(&[0; 7]);
            103
        }
        LogLine::Table => {
            fields.copy_from_slice(&[0; 7]);
            106
        }
        LogLine::Open(o) => {
            fields.copy_from_slice(&[
                o.year,
                o.month,
                o.day,
                o.days,
                o.interval,
                o.kind,
                o.tolerance,
            ]);
            102
        }
        LogLine::Fill(call) => tell_call(call, fields),
        LogLine::NoCall => 105,
    }
}

pub fn sawmauve_call(line: &[u8], fields: &mut [u32]) -> u32
    ensures { (result ≡ one_code line.now fields.old)
        × (fields.new ≡ one_fields line.now fields.old) }
{
    if fields.len() != 7 {
        return Refusal::WrongLength.number() as u32;
    }
    let found = text_log::line::line_of(line);
    tell_line(found, fields)
}
