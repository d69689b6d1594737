// The format of the published file: its reader, and the writing of its records (01, The published file).
#![tactic(auto)]

mod counting;
pub mod fields;
mod slots;
mod spans;
mod trailer;
pub mod writer;

ghost use Rattle.std.specs.Prelude.{◌≡◌};
ghost use Rattle.base.specs.Lists.{every};
ghost use Rattle.file.specs.Reader.{file_slots, layout_fits, tables_ok, read_file, tables_part};
ghost use Rattle.file.specs.Inner.Reading.{Ready, met_by, counted_in, count_tests};

use crate::counting::Counted;
use crate::spans::Framed;
use base::Refusal;

// The figures of a file's trailer: first day number, D, L, M, counts of A, of S and F, and of N slots, sum, layout.
#[derive(Clone, Copy)]
pub struct Figures {
    pub first: u32,
    pub days: u32,
    pub interval: u32,
    pub spans: u32,
    pub actual: u32,
    pub substituted: u32,
    pub none: u32,
    pub sum: u64,
    pub layout: u32,
}

// The records, the spans, and what lies outside them.
#[tactic(auto, unfolding(crate::specs::Reader::tables_ok, crate::specs::Inner::Reading::counted_in))]
fn tables_ok(file: &Framed, found: Counted) -> bool
    requires { met_by found ≡ counted_in file.now.bytes.now (file_slots file.now.figures) }
    ensures { result ≡ tables_ok file.now.bytes.now file.now.figures }
{
    if !counting::forms_ok(found) {
        return false;
    }
    file.spans_ok() && file.states_ok() && file.outside_ok()
}

// Layout 3 is with or without an F; of the others layout 2 has one.
#[tactic(auto, using(crate::proofs::Layouts::none_zero), unfolding(crate::specs::Reader::layout_fits))]
fn layout_fits(layout: u32, agreed: usize) -> bool
    ensures { result ≡ layout_fits layout agreed }
{
    match layout {
        3 => true,
        2 => 0 < agreed,
        _ => agreed == 0,
    }
}

// The counts, the layout and the sum are those of the slots.
fn figures_ok(found: Counted, g: Figures) -> bool
    ensures { result ≡ every (count_tests (met_by found) g) }
{
    found.actual == g.actual as usize
        && found.substituted == g.substituted as usize
        && found.none == g.none as usize
        && layout_fits(g.layout, found.agreed)
        && found.sum == g.sum
}

// The figures of a file's trailer.
pub fn read(file: &[u8]) -> Result<Figures, Refusal>
    ensures { result ≡ read_file file.now }
{
    if file.len() < 32 {
        return Err(Refusal::WrongFrame);
    }
    let g = trailer::figures_at(file);
    if !trailer::trailer_ok(file, g) {
        return Err(Refusal::WrongFrame);
    }
    let found = counting::totals(file, trailer::slot_count(g));
    let framed = Framed {
        bytes: file,
        figures: g,
    };
    if !tables_ok(&framed, found) {
        return Err(Refusal::WrongContent);
    }
    if !figures_ok(found, g) {
        return Err(Refusal::WrongContent);
    }
    Ok(g)
}

// The two tables as one part of the file; of a refused file the empty part.
pub fn tables(file: &[u8]) -> &[u8]
    ensures { result.now ≡ tables_part file.now }
{
    match read(file) {
        Ok(_) => &file[..file.len() - 32],
        Err(_) => &file[..0],
    }
}
