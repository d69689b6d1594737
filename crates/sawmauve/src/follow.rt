// A slot explained.
ghost use Rattle.std.specs.Prelude.{◌≡◌};
ghost use Rattle.book.specs.Lent.{lent_book};
ghost use Rattle.host.specs.Codes.{head_of};
ghost use Rattle.questions.specs.Follow.{explain_code, fields_after};

#[unsafe(no_mangle)]
pub extern "C" fn sawmauve_explain(
    year: u32,
    month: u32,
    day: u32,
    days: u32,
    interval: u32,
    limit: u32,
    tolerance: u32,
    values: &[u32],
    versions: &[u32],
    statuses: &[u8],
    holidays: &[u8],
    readings: &[u32],
    read_versions: &[u32],
    agreed: &[u32],
    agreed_versions: &[u32],
    counts: &[u16],
    widths: &[u16],
    slot: u32,
    fields: &mut [u64],
) -> u32
    ensures { let head = head_of year month day days interval limit tolerance in
        let book = lent_book values.now versions.now statuses.now holidays.now readings.now read_versions.now
        agreed.now agreed_versions.now counts.now widths.now in
        (result ≡ explain_code head book slot fields.old)
        × (fields.new ≡ fields_after head book slot fields.old) }
{
    questions::follow::sawmauve_explain(
        year,
        month,
        day,
        days,
        interval,
        limit,
        tolerance,
        values,
        versions,
        statuses,
        holidays,
        readings,
        read_versions,
        agreed,
        agreed_versions,
        counts,
        widths,
        slot,
        fields,
    )
}
