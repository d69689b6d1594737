// The export of a simulated berth (02, W12).
ghost use Rattle.std.specs.Prelude.{◌≡◌, length};
ghost use Rattle.base.specs.Refusals.{code_of};
ghost use Rattle.book.specs.Lent.{lent_book};
ghost use Rattle.host.specs.Codes.{head_of};
ghost use Rattle.questions.specs.Simulating.{host_answer, report_in, host_lists, host_bytes, host_report};

use base::Refusal;
use berth::Report;
use book::lent::BookMut;
use rules::opening;

// The state and the difference into the report, and 0; else the refusal's number.
fn tell(simulated: Result<Report, Refusal>, report: &mut [i64]) -> u32
    requires { length report.old ≡ 2 }
    ensures { (result ≡ code_of simulated) × (report.new ≡ report_in simulated report.old) }
{
    match simulated {
        Ok(found) => {
            report[0] = found.state as i64;
            report[1] = found.difference;
            0
        }
        Err(refusal) => refusal.number() as u32,
    }
}

pub fn sawmauve_simulate<'a>(
    year: u32,
    month: u32,
    day: u32,
    days: u32,
    interval: u32,
    limit: u32,
    tolerance: u32,
    seed: u32,
    loss: u32,
    values: &'a mut [u32],
    versions: &'a mut [u32],
    statuses: &'a mut [u8],
    holidays: &'a mut [u8],
    readings: &'a mut [u32],
    read_versions: &'a mut [u32],
    agreed: &'a mut [u32],
    agreed_versions: &'a mut [u32],
    counts: &'a mut [u16],
    widths: &'a mut [u16],
    out: &mut [u8],
    report: &mut [i64],
) -> u32
    ensures { let head = head_of year month day days interval limit tolerance in
        let book = lent_book values.old versions.old statuses.old holidays.old readings.old read_versions.old
        agreed.old agreed_versions.old counts.old widths.old in
        let given = out.old in
        let told = report.old in
        (result ≡ code_of (host_answer head seed loss book given told))
        × (lent_book values.new versions.new statuses.new holidays.new readings.new read_versions.new
        agreed.new agreed_versions.new counts.new widths.new
        ≡ host_lists head seed loss book given told)
        × (out.new ≡ host_bytes head seed loss book given told)
        × (report.new ≡ host_report head seed loss book given told) }
{
    let head = host::head_of(year, month, day, days, interval, limit, tolerance);
    if !opening::head_ok(head) {
        return Refusal::OutsideBounds.number() as u32;
    }
    if report.len() != 2 {
        return Refusal::WrongLength.number() as u32;
    }
    let mut book = BookMut {
        values,
        versions,
        statuses,
        holidays,
        readings,
        read_versions,
        agreed,
        agreed_versions,
        counts,
        widths,
    };
    let simulated = berth::simulate(head, seed, loss, &mut book, out);
    tell(simulated, report)
}
