// Which weeks a search for references looks at (01, Filling, rule 3, and 02, W3).
ghost use Rattle.std.specs.Prelude.{true, ◌≡◌, ◌+◌, ◌-◌, ◌*◌, ◌≤◌, ◌<◌, length};
ghost use Rattle.rules.specs.Opening.{head_ok};
ghost use Rattle.rules.specs.Weeks.{first_back, farthest_back};
ghost use Rattle.rules.specs.Inner.Ways.{InBook, four_gaps, GapsUpTo};

use crate::{Head, opening};

// The days back to the first week, and the number of weeks.
#[derive(Clone, Copy)]
pub struct Way {
    pub first: usize,
    pub weeks: usize,
}

// Where a search stands: a week behind the next slot that it looks at, and the weeks that are left.
#[derive(Clone, Copy)]
pub struct Place {
    pub at: usize,
    pub left: usize,
}

// The way from day `day`: none of its weeks is more than `farthest` days back, or before the book.
fn way_within(day: usize, first: usize, farthest: usize) -> Way
    requires { (first ≤ 7) × (day < 400) × (farthest < 400) }
    ensures { (result.first ≡ first) × InBook result.first farthest day result.weeks }
{
    Way {
        first,
        weeks: (day.min(farthest) + 7 - first) / 7,
    }
}

// The way from a target on day `day`: on a holiday it leads to Sundays.
pub fn way_back(head: Head, holidays: &[u8], day: usize) -> Way
    requires { (head_ok head ≡ true) × (length holidays.now ≡ head.days) × (day < head.days) }
    ensures { let held = holidays.now in
        (result.first ≡ first_back head held day) × InBook result.first (farthest_back held day) day result.weeks }
{
    if holidays[day] == 0 {
        return way_within(day, 7, 364);
    }
    let number = opening::first_day(head) + (day as u32);
    way_within(day, calendar::to_sunday(number) as usize, 370)
}

// The slots one, two, three and four weeks before slot `at` are gaps: one test of all, and no branch for each.
fn are_gaps(versions: &[u32], at: usize, week: usize) -> bool
    requires { (4 * week ≤ at) × (at < length versions.now + week) }
    ensures { result ≡ four_gaps versions.now at week }
{
    let near = (versions[at - week] == 0) & (versions[at - 2 * week] == 0);
    let far = (versions[at - 3 * week] == 0) & (versions[at - 4 * week] == 0);
    near & far
}

// Passes over the gaps of the weeks before slot `from`, four at a time: they are no references.
pub fn pass_gaps(versions: &[u32], from: usize, week: usize, weeks: usize) -> Place
    requires { (weeks * week ≤ from) × (from < length versions.now + week) }
    ensures { (result.left ≤ weeks) × GapsUpTo versions.now week from result.at (weeks - result.left) }
{
    let mut at = from;
    let mut left = weeks;
    // no `for`: four weeks a turn, and fewer are left over
    while 4 <= left {
        if !are_gaps(versions, at, week) {
            return Place { at, left };
        }
        at -= 4 * week;
        left -= 4;
    }
    Place { at, left }
}
