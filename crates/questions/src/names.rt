// The exports of a slot by its date and minute, and of a day number's date.
ghost use Rattle.std.specs.Prelude.{◌≡◌};
ghost use Rattle.host.specs.Codes.{head_of};
ghost use Rattle.questions.specs.Naming.{slot_answer, slot_code, date_answer, date_code};

use base::Refusal;
use calendar::DAY_COUNT;
use explain::naming;
use explain::naming::Moment;
use host::head_of;
use rules::{Head, opening};

// The slot of a book that a date and a minute name.
fn slot_of(head: Head, year: u32, month: u32, day: u32, minute: u32) -> Result<u32, Refusal>
    ensures { result ≡ slot_answer head year month day minute }
{
    if !opening::head_ok(head) {
        return Err(Refusal::OutsideBounds);
    }
    if !calendar::is_date(year, month, day) {
        return Err(Refusal::NoPlace);
    }
    let number = calendar::day_number(year, month, day);
    let moment = Moment {
        day: number,
        minute,
    };
    naming::slot_at(head, moment).ok_or(Refusal::NoPlace)
}

pub fn sawmauve_slot(
    year: u32,
    month: u32,
    day: u32,
    days: u32,
    interval: u32,
    limit: u32,
    tolerance: u32,
    at_year: u32,
    at_month: u32,
    at_day: u32,
    minute: u32,
) -> u32
    ensures { result ≡ slot_code (head_of year month day days interval limit tolerance) at_year at_month at_day minute }
{
    let head = head_of(year, month, day, days, interval, limit, tolerance);
    base::number_code(slot_of(head, at_year, at_month, at_day, minute))
}

// A date as eight digits.
fn digits_of(day: u32) -> Result<u32, Refusal>
    ensures { result ≡ date_answer day }
{
    if DAY_COUNT <= day {
        return Err(Refusal::NoPlace);
    }
    let date = calendar::date_of(day);
    Ok(date.year * 10000 + date.month * 100 + date.day)
}

pub fn sawmauve_date(day: u32) -> u32
    ensures { result ≡ date_code day }
{
    base::number_code(digits_of(day))
}
