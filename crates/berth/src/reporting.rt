// What a run reports, read from the file that it published (02, W12).
ghost use Rattle.std.specs.Prelude.{true, ◌≡◌, ◌+◌, ◌*◌, ◌≤◌, pos, ◌-ℤ◌, length};
ghost use Rattle.rules.specs.Opening.{head_ok, slot_count};
ghost use Rattle.file.specs.Reader.{num};
ghost use Rattle.berth.specs.Inner.Refusing.{file_size};

use crate::Report;
use file::fields;
use rules::{Head, opening};

// The published total minus the true total.
fn difference(published: u64, truth: u64) -> i64
    requires { (published ≤ 11_520_000_000_000) × (truth ≤ 57_600_000_000) }
    ensures { result ≡ pos published -ℤ pos truth }
{
    published as i64 - truth as i64
}

// The state of the one span, and the trailer's sum.
pub fn report(head: Head, out: &[u8], total: u64) -> Report
    requires { (head_ok head ≡ true)
        × (file_size head ≤ length out.now)
        × (num 8 out.now (6 * slot_count head + 34) ≤ 11_520_000_000_000)
        × (total ≤ 57_600_000_000) }
    ensures { let file = out.now in
        let tables = 6 * slot_count head in
        result ≡ record { state = num 1 file (tables + 12); difference = pos (num 8 file (tables + 34)) -ℤ pos total; total = total } }
{
    let table = 6 * opening::slot_count(head);
    let state = fields::number(out, table + 12, 1) as u8;
    let published = fields::number(out, table + 34, 8);
    Report {
        state,
        difference: difference(published, total),
        total,
    }
}
