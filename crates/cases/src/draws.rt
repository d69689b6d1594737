// The first ten draws of the simulated berth from three seeds (02, W12).
use crate::say;
use berth::generator::Berth;
use std::io;

fn draws(rt: &impl Print, seed: u32) -> io::Result<()> {
    say::text(rt, b"draws from")?;
    say::field(rt, seed as u64)?;
    say::text(rt, b":")?;
    let mut berth = Berth::new(seed);
    for _ in 0..10 {
        berth = berth.draw();
        say::field(rt, berth.x as u64)?;
    }
    say::text(rt, b"\n")
}

pub fn first_ten(rt: &impl Print) -> io::Result<()> {
    draws(rt, 1)?;
    draws(rt, 2)?;
    draws(rt, 4294967295)
}
