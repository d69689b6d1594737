// The head of a delivery (01, Opening): one whose first day lies before 2098 is tested in place, and never laid out for a call.
ghost use Rattle.std.specs.Prelude.{true, ◌≡◌};
ghost use Rattle.rules.specs.Opening.{head_ok};

use rules::{Head, MOST_DAYS, MOST_LIMIT, MOST_TOLERANCE, opening};

// Within its bounds, and early enough that no number of days takes it past 2099-12-31.
fn is_early(head: Head) -> bool
    ensures { result ≡ true → head_ok head ≡ true }
{
    if 2098 <= head.year {
        return false;
    }
    if !calendar::is_date(head.year, head.month, head.day) {
        return false;
    }
    if !opening::is_interval(head.interval) {
        return false;
    }
    let days = (1 <= head.days) & (head.days <= MOST_DAYS);
    let limit = (1 <= head.limit) & (head.limit <= MOST_LIMIT);
    days & limit & (head.tolerance <= MOST_TOLERANCE)
}

pub fn head_ok(head: Head) -> bool
    ensures { result ≡ head_ok head }
{
    if is_early(head) {
        return true;
    }
    let late = Head {
        year: head.year,
        month: head.month,
        day: head.day,
        days: head.days,
        interval: head.interval,
        limit: head.limit,
        tolerance: head.tolerance,
    };
    opening::head_ok(late)
}
