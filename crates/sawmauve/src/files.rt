// A file written and read.
ghost use Rattle.std.specs.Prelude.{◌≡◌, length};
ghost use Rattle.base.specs.Refusals.{code_of, length_code};
ghost use Rattle.book.specs.Lent.{lent_book};
ghost use Rattle.publishing.specs.Publishing.{publish_answer, publish_after};
ghost use Rattle.file.specs.Reader.{read_file, tables_part};
ghost use Rattle.host.specs.Codes.{head_of, read_answer, read_after};

#[unsafe(no_mangle)]
pub extern "C" fn sawmauve_publish(
    year: u32,
    month: u32,
    day: u32,
    days: u32,
    interval: u32,
    limit: u32,
    tolerance: u32,
    values: &[u32],
    versions: &[u32],
    statuses: &[u8],
    holidays: &[u8],
    readings: &[u32],
    read_versions: &[u32],
    agreed: &[u32],
    agreed_versions: &[u32],
    counts: &[u16],
    widths: &[u16],
    out: &mut [u8],
) -> u64
    ensures { let head = head_of year month day days interval limit tolerance in
        let book = lent_book values.now versions.now statuses.now holidays.now readings.now read_versions.now
        agreed.now agreed_versions.now counts.now widths.now in
        (result ≡ length_code (publish_answer head book out.old))
        × (out.new ≡ publish_after head book out.old) }
{
    host::files::sawmauve_publish(
        year,
        month,
        day,
        days,
        interval,
        limit,
        tolerance,
        values,
        versions,
        statuses,
        holidays,
        readings,
        read_versions,
        agreed,
        agreed_versions,
        counts,
        widths,
        out,
    )
}

#[unsafe(no_mangle)]
pub extern "C" fn sawmauve_check(bytes: &[u8]) -> u32
    ensures { result ≡ code_of (read_file bytes.now) }
{
    host::files::sawmauve_check(bytes)
}

#[unsafe(no_mangle)]
pub extern "C" fn sawmauve_read(bytes: &[u8], figures: &mut [u64]) -> u32
    ensures { (result ≡ read_answer bytes.now figures.old)
        × (figures.new ≡ read_after bytes.now figures.old) }
{
    host::files::sawmauve_read(bytes, figures)
}

#[unsafe(no_mangle)]
pub extern "C" fn sawmauve_tables(bytes: &[u8]) -> u64
    ensures { result ≡ length (tables_part bytes.now) }
{
    host::files::sawmauve_tables(bytes)
}
