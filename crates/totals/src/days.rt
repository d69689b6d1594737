// The totals day by day: each slot is read once, whatever the number of pairs.
ghost use Rattle.std.specs.Prelude.{cond, ◌≡◌, ◌+◌, ◌*◌, ◌^◌, ◌≤◌, ◌<◌, length};
ghost use Rattle.base.specs.Lists.{sum, up_to};
ghost use Rattle.file.specs.Reader.{slot_at};
ghost use Rattle.totals.specs.Stays.{pair_count};
ghost use Rattle.file.specs.Inner.Reading.{Tabled};
ghost use Rattle.totals.specs.Inner.Adding.{holds, with_day, Room, totals_before};

use file::fields;

fn value_at(file: &[u8], i: usize) -> u64
    requires { 6 * (i + 1) ≤ length file.now }
    ensures { (result ≡ (slot_at file.now i).value) × (result < 2 ^ 32) }
{
    fields::number(file, 6 * i, 4)
}

// The sum of the `k` slots from slot `a`.
fn sum_of(file: &[u8], a: usize, k: usize) -> u64
    requires { (6 * (a + k) ≤ length file.now) × (k ≤ 288) }
    ensures { (result ≡ sum (λ i. (slot_at file.now i).value) a k) × (result ≤ 2 ^ 32 * k) }
{
    let mut energy = 0;
    for i in 0..k {
        energy += value_at(file, a + i);
    }
    energy
}

// A day's energy where the stay holds the day, else 0.
fn share(first: u32, end: u32, day: u32, energy: u64) -> u64
    ensures { (result ≡ cond (holds first end day) energy 0) × (result ≤ energy) }
{
    if first <= day && day < end { energy } else { 0 }
}

// Adds a day's energy to the totals of the stays that hold the day.
fn add_day(pairs: &[u32], totals: &mut [u64], day: u32, energy: u64)
    requires { Room pairs.now totals.old energy }
    ensures { totals.new ≡ with_day pairs.now totals.old day energy }
{
    for k in 0..totals.len() {
        totals[k] += share(pairs[2 * k], pairs[2 * k + 1], day, energy);
    }
}

// The totals over a slot table of `days` days of `n` slots.
pub fn total_days(file: &[u8], n: usize, days: u32, pairs: &[u32], totals: &mut [u64])
    requires { Tabled file.now n days × (length totals.old ≡ pair_count pairs.now) }
    ensures { totals.new ≡ totals_before file.now n pairs.now days }
{
    totals.fill(0);
    for day in 0..days {
        let energy = sum_of(file, day as usize * n, n);
        add_day(pairs, totals, day, energy);
    }
}
