// What every program says of a refusal: its only line, on standard output. docs/RULES.md, 12.4.

#![tactic(auto)]

use listing_text::moves::write_refusal;
use refusals::Refusal;
use std::io;

// The line of a number, any byte: it has 13 bytes at most.
pub fn refuse_number(rt: &impl Print, number: u8) -> io::Result<()> {
    let mut line = [0u8; 13];
    let n = write_refusal(&mut line, number as usize);
    rt.write_all(&line[..n])
}

// The line of a refusal.
pub fn refuse(rt: &impl Print, refusal: Refusal) -> io::Result<()> {
    refuse_number(rt, refusal.number())
}
