// A simulated berth (02, W12).
ghost use Rattle.std.specs.Prelude.{◌≡◌};
ghost use Rattle.base.specs.Refusals.{code_of};
ghost use Rattle.book.specs.Lent.{lent_book};
ghost use Rattle.host.specs.Codes.{head_of};
ghost use Rattle.questions.specs.Simulating.{host_answer, host_lists, host_bytes, host_report};

#[unsafe(no_mangle)]
pub extern "C" fn sawmauve_simulate(
    year: u32,
    month: u32,
    day: u32,
    days: u32,
    interval: u32,
    limit: u32,
    tolerance: u32,
    seed: u32,
    loss: u32,
    values: &mut [u32],
    versions: &mut [u32],
    statuses: &mut [u8],
    holidays: &mut [u8],
    readings: &mut [u32],
    read_versions: &mut [u32],
    agreed: &mut [u32],
    agreed_versions: &mut [u32],
    counts: &mut [u16],
    widths: &mut [u16],
    out: &mut [u8],
    report: &mut [i64],
) -> u32
    ensures { let head = head_of year month day days interval limit tolerance in
        let book = lent_book values.old versions.old statuses.old holidays.old readings.old read_versions.old
        agreed.old agreed_versions.old counts.old widths.old in
        let given = out.old in
        let told = report.old in
        (result ≡ code_of (host_answer head seed loss book given told))
        × (lent_book values.new versions.new statuses.new holidays.new readings.new read_versions.new
        agreed.new agreed_versions.new counts.new widths.new
        ≡ host_lists head seed loss book given told)
        × (out.new ≡ host_bytes head seed loss book given told)
        × (report.new ≡ host_report head seed loss book given told) }
{
    questions::simulating::sawmauve_simulate(
        year,
        month,
        day,
        days,
        interval,
        limit,
        tolerance,
        seed,
        loss,
        values,
        versions,
        statuses,
        holidays,
        readings,
        read_versions,
        agreed,
        agreed_versions,
        counts,
        widths,
        out,
        report,
    )
}
