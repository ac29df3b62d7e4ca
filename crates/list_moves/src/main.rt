// The listing program: a roster file on standard input, the moves of its rematch windows on standard
// output. docs/RULES.md, 12.

#![tactic(auto)]

use std::io;

fn main(rt: HostRuntime) -> io::Result<()> {
    listing_program::run(&rt, &mut rt.stdin())
}
