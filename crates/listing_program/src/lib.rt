// The listing program, as one function of an open file: that file in, standard output out. docs/RULES.md, 12.

#![tactic(auto)]

use filed_rosters::{CELLS_ROOM, INPUT_ROOM, KEYS_ROOM, MARKS_ROOM};
use listing::OUTPUT_ROOM;
use listing::entry::listing;
use listing_input::read_input;
use refusal_lines::refuse;
use refusals::Refusal;
use std::io;
use std::io::Read;

// Lists the moves of the input, or says why not.
fn answer(
    rt: &impl Print,
    input: &[u8],
    output: &mut [u8],
    cells: &mut [usize],
    marks: &mut [u8],
    keys: &mut [usize],
) -> io::Result<()> {
    match listing(input, output, cells, marks, keys) {
        Err(refusal) => refuse(rt, refusal),
        Ok(n) => rt.write_all(&output[..n]),
    }
}

// Lists the moves of the input. The room is made here: some 690,000 bytes of stack.
fn list(rt: &impl Print, input: &[u8]) -> io::Result<()> {
    let mut output: [u8; OUTPUT_ROOM] = [0; OUTPUT_ROOM];
    let mut cells: [usize; CELLS_ROOM] = [0; CELLS_ROOM];
    let mut marks: [u8; MARKS_ROOM] = [0; MARKS_ROOM];
    let mut keys: [usize; KEYS_ROOM] = [0; KEYS_ROOM];
    answer(rt, input, &mut output, &mut cells, &mut marks, &mut keys)
}

// Lists the moves of an open file, from where it stands to its end.
pub fn run(rt: &impl Print, file: &mut impl Read) -> io::Result<()> {
    let mut input: [u8; INPUT_ROOM] = [0; INPUT_ROOM];
    let Ok(count) = read_input(file, &mut input) else {
        return refuse(rt, Refusal::Malformed);
    };
    list(rt, &input[..count])
}
