// Reads a file of at most 65,536 bytes on standard input and writes one line of it (01, The published file).
#![tactic(auto)]

use std::io;
use std::io::Write;

// Says on standard error which stream failed, and why.
fn tell(rt: &impl Eprint, stream: &str, error: io::Error) {
    let _ = eprintln!(rt; "{stream}: {error}");
}

fn main(rt: HostRuntime) {
    let mut buf = [0u8; 65537];
    let mut out = [0u8; 160];
    match input::read_all(&mut rt.stdin(), &mut buf) {
        Ok(n) => {
            let k = line::line(&buf[..n], &mut out);
            if let Err(error) = rt.stdout().write_all(&out[..k]) {
                tell(&rt, "standard output", error);
            }
        }
        Err(error) => tell(&rt, "standard input", error),
    }
}
