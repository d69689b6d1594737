// The search for boundaries with a reading (01, Spans).
ghost use Rattle.std.specs.Prelude.{◌≡◌, ◌-◌, ◌≤◌, length};
ghost use Rattle.rules.specs.Spans.{next_read};
ghost use Rattle.rules.specs.Inner.Stretches.{next_meant, read_count};

// The first boundary from `from` on that has a reading.
pub fn next_read(read_versions: &[u32], from: usize) -> Option<usize>
    requires { from ≤ length read_versions.now }
    ensures { next_meant result ≡ next_read read_versions.now from (length read_versions.now - from) }
{
    for d in from..read_versions.len() {
        if read_versions[d] != 0 {
            return Some(d);
        }
    }
    None
}

// How many spans there are: one fewer than boundaries with a reading.
pub fn span_count(read_versions: &[u32]) -> usize
    ensures { result ≡ read_count read_versions.now (length read_versions.now) - 1 }
{
    read_versions
        .iter()
        .filter(|version| **version != 0)
        .count()
        .saturating_sub(1)
}
