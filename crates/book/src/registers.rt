// A register read past its head and its lists' lengths (01, The three calls that fill it; 02, W10).
ghost use Rattle.std.specs.Prelude.{◌≡◌, length};
ghost use Rattle.book.specs.Answers.{received_meant};
ghost use Rattle.book.specs.Written.{written_reads, SameReads};
ghost use Rattle.book.specs.Inner.Numbers.{read_answer, read_after};

use crate::lent::ReadsMut;
use crate::{Filed, filing};
use base::{EIGHT_DIGITS, Refusal};
use rules::MOST_WIDTH;

pub fn file_register(
    reads: &mut ReadsMut<'_>,
    boundary: u32,
    version: u32,
    reading: u32,
    width: u32,
) -> Result<Filed, Refusal>
    requires { let before = written_reads reads.old in
        (length before.read_versions ≡ length before.readings) × (length before.widths ≡ length before.readings) }
    ensures told { let before = written_reads reads.old in
        (received_meant result ≡ read_answer before boundary version reading width)
        × (written_reads reads.new ≡ read_after before boundary version reading width) }
    ensures same { SameReads reads.old reads.new }
{
    let at = boundary as usize;
    if reads.readings.len() <= at {
        return Err(Refusal::NoPlace);
    }
    if version == 0 {
        return Err(Refusal::VersionZero);
    }
    if EIGHT_DIGITS < reading {
        return Err(Refusal::ReadingOver);
    }
    if MOST_WIDTH < width {
        return Err(Refusal::WidthOver);
    }
    let found = filing::against_boundary(
        reads.read_versions[at],
        reads.readings[at],
        reads.widths[at],
        version,
        reading,
        width,
    );
    if filing::is_stored(found) {
        reads.readings[at] = reading;
        reads.read_versions[at] = version;
        reads.widths[at] = width as u16;
    }
    found
}
