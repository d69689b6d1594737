// A slot by its date and minute, and a day number's date.
ghost use Rattle.std.specs.Prelude.{◌≡◌};
ghost use Rattle.host.specs.Codes.{head_of};
ghost use Rattle.questions.specs.Naming.{slot_code, date_code};

#[unsafe(no_mangle)]
pub extern "C" fn sawmauve_slot(
    year: u32,
    month: u32,
    day: u32,
    days: u32,
    interval: u32,
    limit: u32,
    tolerance: u32,
    at_year: u32,
    at_month: u32,
    at_day: u32,
    minute: u32,
) -> u32
    ensures { result ≡ slot_code (head_of year month day days interval limit tolerance) at_year at_month at_day minute }
{
    questions::names::sawmauve_slot(
        year, month, day, days, interval, limit, tolerance, at_year, at_month, at_day, minute,
    )
}

#[unsafe(no_mangle)]
pub extern "C" fn sawmauve_date(day: u32) -> u32
    ensures { result ≡ date_code day }
{
    questions::names::sawmauve_date(day)
}
