// The lines of a log.
ghost use Rattle.std.specs.Prelude.{◌<◌, length};
ghost use Rattle.text_log.specs.Inner.Lines.{LineAt, FoundAt};

use crate::deliveries::Delivery;
use crate::line::LogLine;
use crate::{deliveries, line, pieces};
use book::calls::Call;

// The end of a line, where its LF stands or the bytes end, and the place where the next line begins.
#[derive(Clone, Copy)]
pub struct Cut {
    pub end: usize,
    pub next: usize,
}

// The line that begins at `at`.
pub fn line_at(bytes: &[u8], at: usize) -> Cut
    requires { at < length bytes.now }
    ensures { LineAt bytes.now at result }
{
    match pieces::place_of(&bytes[at..], b'\n') {
        Some(n) => Cut {
            end: at + n,
            next: at + n + 1,
        },
        None => Cut {
            end: bytes.len(),
            next: bytes.len(),
        },
    }
}

// What a line is, and the place where the next line begins.
#[derive(Clone, Copy)]
pub struct Found {
    pub line: LogLine,
    pub next: usize,
}

// The line that begins at `at`, cut out and read.
pub fn read_from(bytes: &[u8], at: usize) -> Found
    requires { at < length bytes.now }
    ensures { FoundAt bytes.now at result.line result.next }
{
    let cut = line_at(bytes, at);
    let end = cut.end;
    let line = line::line_of(&bytes[at..end]);
    Found {
        line,
        next: cut.next,
    }
}

// What the line that begins at `at` is.
pub fn line_from(bytes: &[u8], at: usize) -> Found
    requires { at < length bytes.now }
    ensures { FoundAt bytes.now at result.line result.next }
{
    let Some(delivery) = deliveries::delivery_at(bytes, at) else {
        return read_from(bytes, at);
    };
    let Delivery {
        slot,
        version,
        value,
        status,
        next,
    } = delivery;
    Found {
        line: LogLine::Fill(Call::Delivery {
            slot,
            version,
            value,
            status,
        }),
        next,
    }
}
