// The least route on a map: reads a request and a map file from standard input, and prints the route or the refusal.
#![tactic(auto)]

mod answer;
mod ranking;
mod ride;
mod rides;
mod totals;

use answer::answer;
use std::io;
use std::io::{BufWriter, Read, Write};

// The longest input that is looked at.
const LIMIT: usize = 65_536;

fn print_answer<W: Write>(out: &mut W, input: &[u8]) -> io::Result<()> {
    match answer(input) {
        Ok(ride) => writeln!(out, "{ride}"),
        Err(why) => writeln!(out, "refused {}: {why}", why.number()),
    }
}

// Like the other program's but for what is printed: a crate for both would be longer than these lines.
fn main(rt: HostRuntime) -> io::Result<()> {
    let mut input = Vec::new(rt.alloc());
    // one byte more than is looked at tells a longer input
    rt.stdin().take(LIMIT as u64 + 1).read_to_end(&mut input)?;
    let mut out = BufWriter::new(rt.alloc(), rt.stdout())?;
    if input.len() > LIMIT {
        writeln!(out, "too long")?;
    } else {
        print_answer(&mut out, &input)?;
    }
    out.flush()
}
