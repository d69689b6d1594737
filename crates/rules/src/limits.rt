// The harbour's table of demand limits (02, W5).
ghost use Rattle.std.specs.Prelude.{◌≡◌, length};
ghost use Rattle.base.specs.Lists.{all};
ghost use Rattle.rules.specs.Limits.{rises_at, table_ok, load_answer};

use crate::MOST_LIMIT;
use base::Refusal;

// Each limit is above the one before, and none over 1,000,000.
fn is_rising(table: &[u32]) -> bool
    ensures { result ≡ all (rises_at table.now) 0 (length table.now) }
{
    let mut last = 0;
    for limit in table {
        if *limit <= last {
            return false;
        }
        if MOST_LIMIT < *limit {
            return false;
        }
        last = *limit;
    }
    true
}

fn table_ok(table: &[u32]) -> bool
    ensures { result ≡ table_ok table.now }
{
    if table.len() < 1 {
        return false;
    }
    if 24 < table.len() {
        return false;
    }
    is_rising(table)
}

// The demand limit in W at a place of the table, counted from 1.
pub fn load(table: &[u32], kind: u32) -> Result<u32, Refusal>
    ensures { result ≡ load_answer table.now kind }
{
    if !table_ok(table) {
        return Err(Refusal::WrongLimits);
    }
    if kind < 1 {
        return Err(Refusal::OutsideBounds);
    }
    let place = kind as usize;
    if table.len() < place {
        return Err(Refusal::OutsideBounds);
    }
    Ok(table[place - 1])
}
