// The planners' program, as one function: its arguments and standard input in, standard output out. docs/RULES.md,
// 12 and 13.

#![tactic(auto)]

ghost use Rattle.std.specs.Prelude.{◌≤◌};

use refusal_lines::refuse;
use refusals::Refusal;
use std::env::{Env, FillError};
use std::io;

mod calendars;
mod duties;

// The most bytes of an argument; a longer one is read as no bytes.
const ARGUMENT_ROOM: usize = 4096;

fn is_there(rt: &impl Env, number: usize) -> bool {
    match rt.arg(number, &mut []) {
        Err(FillError::NotPresent) => false,
        _ => true,
    }
}

// How many bytes an argument has; none where it is missing.
fn argument(rt: &impl Env, number: usize, room: &mut [u8; ARGUMENT_ROOM]) -> usize
    ensures { result ≤ 4096 }
{
    match rt.arg(number, room) {
        Err(_) => 0,
        Ok(size) => size,
    }
}

// Does what the first argument says; refused where that is no command, or has not as many arguments as the command takes.
pub fn run(rt: &(impl Print + Input + Env)) -> io::Result<()> {
    let mut room = [0u8; ARGUMENT_ROOM];
    let size = argument(rt, 1, &mut room);
    let word = &room[..size];
    if word == b"driver-calendar".as_slice() && is_there(rt, 3) && !is_there(rt, 4) {
        return calendars::run(rt);
    }
    if word == b"read-calendar".as_slice() && !is_there(rt, 2) {
        return duties::run(rt);
    }
    refuse(rt, Refusal::Malformed)
}
