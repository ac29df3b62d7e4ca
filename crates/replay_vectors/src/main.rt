// The original's answers, put to the engine again line by line of a list: a sample of them; chosen questions, such as
// the worked examples; and short lists in each of which one expected answer is wrong, of which it prints what it would
// print of an engine that answers otherwise. Its standard input is the lists, made by oracle/ (the program `sample`).

#![tactic(auto)]

mod ask;
mod run;

use std::io;

fn main(rt: HostRuntime) -> io::Result<()> {
    run::run(&rt)
}
