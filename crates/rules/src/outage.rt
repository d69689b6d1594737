// Outage zero, the first rule of filling (01, Filling).
ghost use Rattle.std.specs.Prelude.{◌≡◌, ◌-◌, ◌<◌, ◌≤◌, length};
ghost use Rattle.rules.specs.Filling.{outage_after};
ghost use Rattle.rules.specs.Inner.Walks.{zero_at, zero_before};

use crate::tests;

// The first slot from `start` that is no gap has the outage bit.
fn outage_after(versions: &[u32], statuses: &[u8], start: usize) -> bool
    requires { (length statuses.now ≡ length versions.now) × (start ≤ length versions.now) }
    ensures { result ≡ outage_after versions.now statuses.now start (length versions.now - start) }
{
    for j in start..versions.len() {
        if versions[j] != 0 {
            return tests::outage_bit(statuses[j]);
        }
    }
    false
}

// Outage zero applies to slot `at`. `before` is the same of the slot before it.
pub fn outage_zero(versions: &[u32], statuses: &[u8], at: usize, before: bool) -> bool
    requires { (length statuses.now ≡ length versions.now)
        × (at < length versions.now)
        × (before ≡ zero_before versions.now statuses.now (length versions.now) at) }
    ensures { result ≡ zero_at versions.now statuses.now (length versions.now) at }
{
    if versions[at] != 0 {
        return false;
    }
    if at == 0 {
        return outage_after(versions, statuses, at);
    }
    let last = at - 1;
    if versions[last] == 0 {
        return before;
    }
    if tests::outage_bit(statuses[last]) {
        return true;
    }
    outage_after(versions, statuses, at)
}
