// The lengths of lent lists (01, Numbers of a refusal, 2).
ghost use Rattle.std.specs.Prelude.{true, ◌&&◌, [], ◌∷◌, ◌≡◌, suc};
ghost use Rattle.rules.specs.Opening.{head_ok, slot_count};
ghost use Rattle.base.specs.Lists.{every};
ghost use Rattle.book.specs.Cells.{all_long, book_fits};
ghost use Rattle.book.specs.Lent.{book_in};

use crate::Book;
use rules::{Head, opening};

pub fn slots_fit(head: Head, values: usize, versions: usize, statuses: usize) -> bool
    requires { head_ok head ≡ true }
    ensures { result ≡ all_long (slot_count head) (values ∷ versions ∷ statuses ∷ []) }
{
    let n = opening::slot_count(head);
    if values != n {
        return false;
    }
    if versions != n {
        return false;
    }
    statuses == n
}

// a list of holidays, or of counts
pub fn days_fit(head: Head, days: usize) -> bool
    ensures { result ≡ all_long head.days (days ∷ []) }
{
    days == head.days as usize
}

// The lists of a delivery (02, W6).
pub fn delivery_fits(
    head: Head,
    values: usize,
    versions: usize,
    statuses: usize,
    counts: usize,
) -> bool
    requires { head_ok head ≡ true }
    ensures { result ≡ (all_long (slot_count head) (values ∷ versions ∷ statuses ∷ []) && all_long head.days (counts ∷ [])) }
{
    if !slots_fit(head, values, versions, statuses) {
        return false;
    }
    days_fit(head, counts)
}

// The lists of a register read (02, W10).
pub fn reads_fit(head: Head, readings: usize, read_versions: usize, widths: usize) -> bool
    ensures { result ≡ all_long (suc head.days) (readings ∷ read_versions ∷ widths ∷ []) }
{
    let n = head.days as usize + 1;
    if readings != n {
        return false;
    }
    if read_versions != n {
        return false;
    }
    widths == n
}

pub fn agreed_fit(head: Head, agreed: usize, agreed_versions: usize) -> bool
    requires { head_ok head ≡ true }
    ensures { result ≡ all_long (slot_count head) (agreed ∷ agreed_versions ∷ []) }
{
    let n = opening::slot_count(head);
    if agreed != n {
        return false;
    }
    agreed_versions == n
}

// The cells' nine lists, in the order of an opening's arguments.
fn cells_fit(
    head: Head,
    values: usize,
    versions: usize,
    statuses: usize,
    holidays: usize,
    readings: usize,
    read_versions: usize,
    agreed: usize,
    agreed_versions: usize,
    widths: usize,
) -> bool
    requires { head_ok head ≡ true }
    ensures { result ≡ every
        (all_long (slot_count head) (values ∷ versions ∷ statuses ∷ [])
        ∷ all_long head.days (holidays ∷ [])
        ∷ all_long (suc head.days) (readings ∷ read_versions ∷ widths ∷ [])
        ∷ all_long (slot_count head) (agreed ∷ agreed_versions ∷ [])
        ∷ []) }
{
    if !slots_fit(head, values, versions, statuses) {
        return false;
    }
    if !days_fit(head, holidays) {
        return false;
    }
    if !reads_fit(head, readings, read_versions, widths) {
        return false;
    }
    agreed_fit(head, agreed, agreed_versions)
}

// All ten lists: the counts (02, W6) and the widths (02, W10) last.
pub fn book_fits(
    head: Head,
    values: usize,
    versions: usize,
    statuses: usize,
    holidays: usize,
    readings: usize,
    read_versions: usize,
    agreed: usize,
    agreed_versions: usize,
    counts: usize,
    widths: usize,
) -> bool
    requires { head_ok head ≡ true }
    ensures { result ≡ (every
        (all_long (slot_count head) (values ∷ versions ∷ statuses ∷ [])
        ∷ all_long head.days (holidays ∷ [])
        ∷ all_long (suc head.days) (readings ∷ read_versions ∷ widths ∷ [])
        ∷ all_long (slot_count head) (agreed ∷ agreed_versions ∷ [])
        ∷ [])
        && all_long head.days (counts ∷ [])) }
{
    if !cells_fit(
        head,
        values,
        versions,
        statuses,
        holidays,
        readings,
        read_versions,
        agreed,
        agreed_versions,
        widths,
    ) {
        return false;
    }
    days_fit(head, counts)
}

// All ten lent lists.
pub fn lists_fit(head: Head, book: &Book<'_>) -> bool
    requires { head_ok head ≡ true }
    ensures { result ≡ book_fits head (book_in book.now) }
{
    let cells = book.cells;
    let slots = cells.slots;
    let agreed = cells.agreed;
    book_fits(
        head,
        slots.values.len(),
        slots.versions.len(),
        slots.statuses.len(),
        cells.holidays.len(),
        cells.readings.len(),
        cells.read_versions.len(),
        agreed.values.len(),
        agreed.versions.len(),
        book.counts.len(),
        cells.widths.len(),
    )
}
