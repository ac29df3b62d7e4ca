// The planners' program: a command and its arguments, standard input to standard output. docs/PLANNERS.md.

#![tactic(auto)]

use std::io;

fn main(rt: HostRuntime) -> io::Result<()> {
    planner_program::run(&rt)
}
