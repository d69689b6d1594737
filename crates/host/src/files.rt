// The exports that write and read a file.
ghost use Rattle.std.specs.Prelude.{◌≡◌, length};
ghost use Rattle.base.specs.Refusals.{code_of, length_code};
ghost use Rattle.book.specs.Lent.{lent_book};
ghost use Rattle.publishing.specs.Publishing.{publish_answer, publish_after};
ghost use Rattle.file.specs.Reader.{read_file, tables_part};
ghost use Rattle.host.specs.Codes.{head_of, read_answer, read_after};

use crate::head_of;
use base::Refusal;
use book::Book;

pub fn sawmauve_publish(
    year: u32,
    month: u32,
    day: u32,
    days: u32,
    interval: u32,
    limit: u32,
    tolerance: u32,
    values: &[u32],
    versions: &[u32],
    statuses: &[u8],
    holidays: &[u8],
    readings: &[u32],
    read_versions: &[u32],
    agreed: &[u32],
    agreed_versions: &[u32],
    counts: &[u16],
    widths: &[u16],
    out: &mut [u8],
) -> u64
    ensures { let head = head_of year month day days interval limit tolerance in
        let book = lent_book values.now versions.now statuses.now holidays.now readings.now read_versions.now
        agreed.now agreed_versions.now counts.now widths.now in
        (result ≡ length_code (publish_answer head book out.old))
        × (out.new ≡ publish_after head book out.old) }
{
    let head = head_of(year, month, day, days, interval, limit, tolerance);
    let book = Book::of(
        values,
        versions,
        statuses,
        holidays,
        readings,
        read_versions,
        agreed,
        agreed_versions,
        counts,
        widths,
    );
    base::length_code(publishing::publish(head, &book, out))
}

// 0 for a file that the reader accepts, or the refusal's number (02, W9).
pub fn sawmauve_check(bytes: &[u8]) -> u32
    ensures { result ≡ code_of (read_file bytes.now) }
{
    base::code_of(file::read(bytes))
}

// 0 and the nine figures, or the refusal's number; 2 for a list of figures that is not 9 long.
pub fn sawmauve_read(bytes: &[u8], figures: &mut [u64]) -> u32
    ensures { (result ≡ read_answer bytes.now figures.old)
        × (figures.new ≡ read_after bytes.now figures.old) }
{
    if figures.len() != 9 {
        return Refusal::WrongLength.number() as u32;
    }
    match file::read(bytes) {
        Ok(g) => {
            figures.copy_from_slice(&[
                g.first as u64,
                g.days as u64,
                g.interval as u64,
                g.spans as u64,
                g.actual as u64,
                g.substituted as u64,
                g.none as u64,
                g.sum,
                g.layout as u64,
            ]);
            0
        }
        Err(refusal) => refusal.number() as u32,
    }
}

// The length of the tables' part of a file, 0 for a refused one.
pub fn sawmauve_tables(bytes: &[u8]) -> u64
    ensures { result ≡ length (tables_part bytes.now) }
{
    file::tables(bytes).len() as u64
}
