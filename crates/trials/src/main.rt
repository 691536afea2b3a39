// The program `trials`: hand-made trials of what the crates below the market do, in sections: messages, broken tables, samples of reports,
// changed reports, opened markets. What each must write was worked out by hand or with the second program (tests/second).
#![tactic(auto)]

mod changed;
mod lines;
mod messages;
mod openings;
mod samples;
mod shares;
mod tables;

ghost use Rattle.std.specs.Prelude.{◌≤◌, length, IfOk};

use std::io::{Read, Result};

// Puts SOH for each `|`, then goes over the lines.
fn whole(out: &impl Print, s: &mut [u8]) -> Result<()> {
    lines::soh(s);
    lines::lines(out, &s[0..])
}

// Reads until the buffer is full or the input ends, and gives how many bytes that are.
fn read_full(input: &mut impl Read, buffer: &mut [u8]) -> Result<usize>
    ensures { IfOk result (λ n. n ≤ length buffer.new) }
{
    let mut n = 0;
    while n < buffer.len() {
        let more = input.read(&mut buffer[n..])?;
        if more == 0 {
            break;
        }
        n += more;
    }
    Ok(n)
}

fn main(rt: HostRuntime) -> Result<()> {
    let mut b = [0u8; 65536];
    let n = read_full(&mut rt.stdin(), &mut b)?;
    whole(&rt, &mut b[..n])
}
