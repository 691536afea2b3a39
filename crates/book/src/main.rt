// The program `book`: reads messages, one a line with `|` for SOH, and prints the levels that they leave. print has what is printed for
// a table, take the lines of the input one after another, program all of it.
#![tactic(auto)]

mod print;
mod program;
mod take;

use std::io::Result;

fn main(rt: HostRuntime) -> Result<()> {
    program::print_book(&rt, &mut rt.stdin())
}
