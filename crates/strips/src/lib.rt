// A slot table laid out for a store that writes only the blocks that changed (02, W13).
#![tactic(auto)]

mod records;

ghost use Rattle.std.specs.Prelude.{◌≡◌, ◌*◌, ◌<◌, ◌≤◌, length};
ghost use Rattle.base.specs.Refusals.{answered};
ghost use Rattle.strips.specs.Strips.{per_day, lengths_ok, laid_rules, laid_answer, to_strips_after, from_strips_after};
ghost use Rattle.strips.specs.Inner.Laying.{Slot, stored_in, restored_in};

use base::Refusal;

// The table is 6 × n × a number of days from 1 to 400 long, and the output as long as it.
#[tactic(auto, using(crate::proofs::Lengths::tests), unfolding(crate::specs::Strips::lengths_ok))]
fn fit(n: usize, table: usize, out: usize) -> bool
    requires { (0 < n) × (n ≤ 288) }
    ensures { result ≡ lengths_ok n table out }
{
    let day = 6 * n;
    table % day == 0 && day <= table && table <= 400 * day && out == table
}

// Writes what is stored of slot `i` into the strips.
fn lay_slot(n: usize, table: &[u8], out: &mut [u8], i: usize)
    requires { Slot n table.now out.old i }
    ensures { out.new ≡ stored_in n table.now out.old i }
{
    let count = table.len() / 6;
    let at = 6 * i;
    let value = records::value(table, at, 1);
    let earlier = records::day_earlier(table, n, i);
    let difference = (value + 4_294_967_296 - earlier) % 4_294_967_296;
    records::put(out, i, count, difference, table[at + 4], table[at + 5]);
}

// Writes slot `i` of the table; the value a day earlier is read from the table as far as it is written.
fn restore_slot(n: usize, strips: &[u8], out: &mut [u8], i: usize)
    requires { Slot n strips.now out.old i }
    ensures { out.new ≡ restored_in n strips.now out.old i }
{
    let count = strips.len() / 6;
    let difference = records::value(strips, i, count);
    let earlier = records::day_earlier(out, n, i);
    let value = (earlier + difference) % 4_294_967_296;
    records::put(
        out,
        6 * i,
        1,
        value,
        strips[i + 4 * count],
        strips[i + 5 * count],
    );
}

// n, where the call isn't refused.
fn slots_a_day(interval: u32, given: usize, out: usize) -> Result<usize, Refusal>
    ensures { result ≡ answered (laid_rules interval given out) (per_day interval) }
{
    if !rules::opening::is_interval(interval) {
        return Err(Refusal::OutsideBounds);
    }
    let n = (1440 / interval) as usize;
    if !fit(n, given, out) {
        return Err(Refusal::WrongTable);
    }
    Ok(n)
}

// The strips of a table.
pub fn to_strips(interval: u32, table: &[u8], out: &mut [u8]) -> Result<(), Refusal>
    ensures { (result ≡ laid_answer interval (length table.now) (length out.old))
        × (out.new ≡ to_strips_after interval table.now out.old) }
{
    let n = slots_a_day(interval, table.len(), out.len())?;
    for i in 0..table.len() / 6 {
        lay_slot(n, table, out, i);
    }
    Ok(())
}

// The table of its strips.
pub fn from_strips(interval: u32, strips: &[u8], out: &mut [u8]) -> Result<(), Refusal>
    ensures { (result ≡ laid_answer interval (length strips.now) (length out.old))
        × (out.new ≡ from_strips_after interval strips.now out.old) }
{
    let n = slots_a_day(interval, strips.len(), out.len())?;
    for i in 0..strips.len() / 6 {
        restore_slot(n, strips, out, i);
    }
    Ok(())
}
