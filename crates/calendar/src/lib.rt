// The Gregorian calendar from 2000-01-01 to 2099-12-31 (01, Opening). Day number 0 is 2000-01-01.
#![tactic(auto)]

ghost use Rattle.std.specs.Prelude.{true, ◌≡◌, ◌-◌, ◌≤◌, ◌<◌};
ghost use Rattle.calendar.specs.Calendar.{day_count, leap, month_length, year_length, days_before_month, days_before_year};
ghost use Rattle.calendar.specs.Calendar.{day_number, is_date, place, date_of, weekday, to_sunday};

// The days from 2000-01-01 to 2099-12-31.
pub const DAY_COUNT: u32 = 36_525;

// The days before each month, January to December: an ordinary year's, then a leap year's (02, W4).
const MONTH_STARTS: [[u32; 12]; 2] = [
    [0, 31, 59, 90, 120, 151, 181, 212, 243, 273, 304, 334],
    [0, 31, 60, 91, 121, 152, 182, 213, 244, 274, 305, 335],
];

// Every month has as many days.
const SHORTEST_MONTH: u32 = 28;

#[derive(Clone, Copy)]
pub struct Date {
    pub year: u32,
    pub month: u32,
    pub day: u32,
}

// A year or a month, and the days of it that have passed.
#[derive(Clone, Copy)]
struct Place {
    at: u32,
    left: u32,
}

#[tactic(auto, unfolding(crate::specs::Calendar::leap))]
pub fn is_leap(year: u32) -> bool
    ensures { result ≡ leap year }
{
    year % 4 == 0 && (year % 100 != 0 || year % 400 == 0)
}

#[tactic(auto, unfolding(crate::specs::Calendar::year_length))]
fn year_length(year: u32) -> u32
    ensures { result ≡ year_length year }
{
    if is_leap(year) { 366 } else { 365 }
}

// No date has month 0 or a month above 12: they are answered as the definition does.
#[tactic(auto, using(crate::proofs::Closed::month_length_lem, crate::proofs::Closed::no_month))]
pub fn month_length(year: u32, month: u32) -> u32
    ensures { result ≡ month_length year month }
{
    match month {
        2 if is_leap(year) => 29,
        2 => 28,
        4 | 6 | 9 | 11 => 30,
        0..=12 => 31,
        _ => 0,
    }
}

#[tactic(auto, using(crate::proofs::Closed::at_least_28), unfolding(crate::specs::Calendar::is_date))]
pub fn is_date(year: u32, month: u32, day: u32) -> bool
    ensures { result ≡ is_date year month day }
{
    if !(2000..=2099).contains(&year) || !(1..=12).contains(&month) {
        return false;
    }
    1 <= day && (day <= SHORTEST_MONTH || day <= month_length(year, month))
}

// The days of the years from 2000 to the one before `year`: 2000 and every fourth after it are leap years.
#[tactic(auto, using(crate::proofs::Closed::years_before))]
pub fn days_before_year(year: u32) -> u32
    requires { (2000 ≤ year) × (year ≤ 2099) }
    ensures { result ≡ days_before_year (year - 2000) }
{
    let years = year - 2000;
    365 * years + (years + 3) / 4
}

pub fn days_before_month(year: u32, month: u32) -> u32
    requires { (1 ≤ month) × (month ≤ 12) }
    ensures { result ≡ days_before_month year (month - 1) }
{
    let row = is_leap(year) as usize;
    let column = (month - 1) as usize;
    MONTH_STARTS[row][column]
}

#[tactic(auto, using(crate::proofs::Bounds::bounded, crate::proofs::Dates::last_day), unfolding(crate::specs::Calendar::day_number))]
pub fn day_number(year: u32, month: u32, day: u32) -> u32
    requires { is_date year month day ≡ true }
    ensures { result ≡ day_number year month day }
{
    days_before_year(year) + days_before_month(year, month) + (day - 1)
}

// The year of a day number.
fn year_at(number: u32) -> Place
    ensures { result ≡ place year_length 99 2000 number }
{
    let mut left = number;
    for at in 2000..2099 {
        let length = year_length(at);
        if left < length {
            return Place { at, left };
        }
        left -= length;
    }
    Place { at: 2099, left }
}

// The month of a day of the year: the last that starts on it or before.
fn month_at(year: Place) -> Place
    ensures { result ≡ place (month_length year.at) 11 1 year.left }
{
    let mut start = 0;
    for at in 1..12 {
        let next = days_before_month(year.at, at + 1);
        if year.left < next {
            return Place {
                at,
                left: year.left - start,
            };
        }
        start = next;
    }
    Place {
        at: 12,
        left: year.left - start,
    }
}

#[tactic(auto, using(crate::proofs::Places::left_small), unfolding(crate::specs::Calendar::date_of))]
pub fn date_of(number: u32) -> Date
    requires { number < day_count }
    ensures { result ≡ date_of number }
{
    let year = year_at(number);
    let month = month_at(year);
    Date {
        year: year.at,
        month: month.at,
        day: month.left + 1,
    }
}

// Sunday is 0 and Saturday 6: 2000-01-01 was a Saturday (02, W3).
pub fn weekday(number: u32) -> u32
    requires { number < day_count }
    ensures { result ≡ weekday number }
{
    (number + 6) % 7
}

// The days back to the nearest Sunday strictly before a day.
#[tactic(auto, unfolding(crate::specs::Calendar::to_sunday))]
pub fn to_sunday(number: u32) -> u32
    requires { number < day_count }
    ensures { result ≡ to_sunday number }
{
    match weekday(number) {
        0 => 7,
        past => past,
    }
}
