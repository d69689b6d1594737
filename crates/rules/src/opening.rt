// The bounds of a head and the figures that follow from it (01, Opening).
ghost use Rattle.std.specs.Prelude.{◌≡◌, true, ◌+◌, ◌/◌, ◌≤◌, leb};
ghost use Rattle.calendar.specs.Calendar.{is_date, day_count};
ghost use Rattle.rules.specs.Numbers.{most_days};
ghost use Rattle.base.specs.Lists.{every};
ghost use Rattle.rules.specs.Opening.{interval_ok, day_tests, head_ok, first_day, slots_per_day, slot_count};

use crate::{Head, MOST_DAYS, MOST_LIMIT, MOST_TOLERANCE};
use calendar::DAY_COUNT;

// A day of the book, counted from 0, and how many slots it has.
#[derive(Clone, Copy)]
pub struct Day {
    pub number: usize,
    pub slots: usize,
}

pub fn is_interval(interval: u32) -> bool
    ensures { result ≡ interval_ok interval }
{
    matches!(interval, 5 | 15 | 30)
}

// The last day is not after 2099-12-31: 400 days from any day before 2098 end in time.
fn ends_in_time(head: Head) -> bool
    requires { (is_date head.year head.month head.day ≡ true) × (head.days ≤ most_days) }
    ensures { result ≡ leb (first_day head + head.days) day_count }
{
    if head.year < 2098 {
        return true;
    }
    calendar::day_number(head.year, head.month, head.day) + head.days <= DAY_COUNT
}

// The first day is a date, and the last one not after 2099-12-31.
fn are_days(head: Head) -> bool
    ensures { result ≡ every (day_tests head) }
{
    if !calendar::is_date(head.year, head.month, head.day) {
        return false;
    }
    if head.days < 1 {
        return false;
    }
    if MOST_DAYS < head.days {
        return false;
    }
    ends_in_time(head)
}

// The head is within its bounds.
pub fn head_ok(head: Head) -> bool
    ensures { result ≡ head_ok head }
{
    if !is_interval(head.interval) {
        return false;
    }
    if !are_days(head) {
        return false;
    }
    if head.limit < 1 {
        return false;
    }
    if MOST_LIMIT < head.limit {
        return false;
    }
    head.tolerance <= MOST_TOLERANCE
}

// The day number of the first day.
pub fn first_day(head: Head) -> u32
    requires { head_ok head ≡ true }
    ensures { result ≡ first_day head }
{
    calendar::day_number(head.year, head.month, head.day)
}

// The day of a slot, and the slots a day: a division by a constant costs a multiplication.
pub fn day_with(head: Head, slot: usize) -> Day
    requires { head_ok head ≡ true }
    ensures { (result.number ≡ slot / slots_per_day head) × (result.slots ≡ slots_per_day head) }
{
    match head.interval {
        30 => Day {
            number: slot / 48,
            slots: 48,
        },
        15 => Day {
            number: slot / 96,
            slots: 96,
        },
        _ => Day {
            number: slot / 288,
            slots: 288,
        },
    }
}

// Slots a day.
pub fn slots_per_day(head: Head) -> usize
    requires { head_ok head ≡ true }
    ensures { result ≡ slots_per_day head }
{
    day_with(head, 0).slots
}

// The day of a slot.
pub fn day_of(head: Head, slot: usize) -> usize
    requires { head_ok head ≡ true }
    ensures { result ≡ slot / slots_per_day head }
{
    day_with(head, slot).number
}

// Slots of the book.
pub fn slot_count(head: Head) -> usize
    requires { head_ok head ≡ true }
    ensures { result ≡ slot_count head }
{
    slots_per_day(head) * (head.days as usize)
}
