// A file exported as NEM12, the market's meter data file (02, W8).
#![tactic(auto)]

mod checks;
mod days;
mod headers;
mod marks;
mod writing;

ghost use Rattle.std.specs.Prelude.{true, Ok, ◌≡◌, ◌+◌, ◌^◌, ◌<◌, leb, length};
ghost use Rattle.file.specs.Reader.{read_file};
ghost use Rattle.market.specs.Fields.{lent};
ghost use Rattle.market.specs.Export.{content_of, body_of, identifier_ok, supplied_ok, export_answer, export_after};
ghost use Rattle.line.specs.Inner.Writing.{capped, Added};

use base::Refusal;
use file::Figures;
use line::writing::put_text;

// The method codes that the caller gives for the methods 2, 3, 5, 18 and 19.
#[derive(Clone, Copy)]
pub struct Codes {
    pub two: u32,
    pub three: u32,
    pub five: u32,
    pub eighteen: u32,
    pub nineteen: u32,
}

// What the caller supplies: the identifier, the other header texts in the order of the records, the reason code, the creation time.
#[derive(Clone, Copy)]
pub struct Texts<'a> {
    pub identifier: &'a [u8],
    pub from: &'a [u8],
    pub to: &'a [u8],
    pub configuration: &'a [u8],
    pub register: &'a [u8],
    pub suffix: &'a [u8],
    pub stream: &'a [u8],
    pub serial: &'a [u8],
    pub next_read: &'a [u8],
    pub reason: &'a [u8],
    pub created: &'a [u8],
}

// Puts the records of an accepted file but the last at the start.
fn put_body(out: &mut [u8], file: &[u8], g: Figures, texts: &Texts, codes: Codes) -> usize
    requires { (read_file file.now ≡ Ok g) × (length texts.now.created.now ≡ 14) }
    ensures { Added out.old 0 out.new result (body_of (lent texts.now) (content_of codes file.now)) }
{
    let head = headers::put_100(out, 0, texts);
    let meter = headers::put_200(out, head, texts, g.interval);
    let n = 1440 / g.interval as usize;
    days::put_days(out, meter, file, codes, g.first, n, g.days, texts)
}

// The length of these records.
fn body_length(file: &[u8], g: Figures, texts: &Texts, codes: Codes) -> usize
    requires { (read_file file.now ≡ Ok g) × (length texts.now.created.now ≡ 14) }
    ensures { result ≡ capped (length (body_of (lent texts.now) (content_of codes file.now))) }
{
    let mut aside = [0u8; 1];
    put_body(&mut aside, file, g, texts, codes)
}

// These records and the last, of 5 bytes, fit. So a length at the highest number, where the count stops, never does.
#[tactic(auto, using(crate::proofs::Answers::less_five))]
fn is_room(body: usize, room: usize) -> bool
    ensures { (result ≡ leb (body + 5) room) × (room < 2 ^ 64) }
{
    5 <= room && body <= room - 5
}

// The export of an accepted file with texts that are not refused.
fn export_in(
    file: &[u8],
    g: Figures,
    texts: &Texts,
    codes: Codes,
    out: &mut [u8],
) -> Result<usize, Refusal>
    requires { (read_file file.now ≡ Ok g)
        × (identifier_ok texts.now.identifier.now ≡ true)
        × (supplied_ok (lent texts.now) codes ≡ true) }
    ensures { (result ≡ export_answer file.now (lent texts.now) codes out.old)
        × (out.new ≡ export_after file.now (lent texts.now) codes out.old) }
{
    let body = body_length(file, g, texts, codes);
    if !is_room(body, out.len()) {
        return Err(Refusal::ShortBuffer);
    }
    let end = put_body(out, file, g, texts, codes);
    let length = put_text(out, end, b"900\r\n");
    Ok(length)
}

// The export of an accepted file.
fn export_of(
    file: &[u8],
    g: Figures,
    texts: &Texts,
    codes: Codes,
    out: &mut [u8],
) -> Result<usize, Refusal>
    requires { read_file file.now ≡ Ok g }
    ensures { (result ≡ export_answer file.now (lent texts.now) codes out.old)
        × (out.new ≡ export_after file.now (lent texts.now) codes out.old) }
{
    if !checks::is_meter(texts.identifier) {
        return Err(Refusal::WrongIdentifier);
    }
    if !checks::are_supplied(texts, codes) {
        return Err(Refusal::WrongText);
    }
    export_in(file, g, texts, codes, out)
}

// Exports a file as NEM12: `out` takes the export, and its length is answered.
pub fn nem12(file: &[u8], texts: &Texts, codes: Codes, out: &mut [u8]) -> Result<usize, Refusal>
    ensures { (result ≡ export_answer file.now (lent texts.now) codes out.old)
        × (out.new ≡ export_after file.now (lent texts.now) codes out.old) }
{
    let g = file::read(file)?;
    export_of(file, g, texts, codes, out)
}
