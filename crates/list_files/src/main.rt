// The listing program on each file that the arguments name, in their order: a file's name, and what is written of it.
// examples/make-rosters writes the files, and the names.

#![tactic(auto)]

use refusal_lines::refuse;
use refusals::Refusal;
use std::env::{Env, FillError};
use std::fs::File;
use std::{io, str};

// A name that does not open is refused, as a file is whose reading fails.
fn list_file(rt: &HostRuntime, name: &[u8]) -> io::Result<()> {
    rt.write_all(name)?;
    rt.write_all(b"\n")?;
    let Ok(path) = str::from_utf8(name) else {
        return refuse(rt, Refusal::Malformed);
    };
    let Ok(mut file) = File::open(rt, path) else {
        return refuse(rt, Refusal::Malformed);
    };
    listing_program::run(rt, &mut file)
}

// An argument's file. The name has room for any path; a longer one names no file, and is not written.
fn list_argument(rt: &HostRuntime, number: usize) -> io::Result<bool> {
    let mut name = [0u8; 4096];
    let size = match rt.arg(number, &mut name) {
        Err(FillError::NotPresent) => return Ok(false),
        Err(FillError::TooLong) => 0,
        Ok(size) => size,
    };
    list_file(rt, &name[..size])?;
    Ok(true)
}

fn main(rt: HostRuntime) -> io::Result<()> {
    for number in 1..usize::MAX {
        if !list_argument(&rt, number)? {
            break;
        }
    }
    Ok(())
}
