// `driver-calendar DRIVER STAMP`: a roster file in, the driver's calendar out.
use crate::{ARGUMENT_ROOM, argument};
use decimals::reading::read_decimal;
use filed_rosters::{CELLS_ROOM, INPUT_ROOM, KEYS_ROOM, MARKS_ROOM};
use listing_input::read_input;
use planner_calendar::file_calendar;
use refusal_lines::refuse;
use refusals::Refusal;
use std::env::Env;
use std::io;

// The object of 128 duties.
const OUTPUT_ROOM: usize = 16626;

// Writes the calendar, or says why not.
fn answer(
    rt: &impl Print,
    input: &[u8],
    driver: usize,
    stamp: &[u8],
    output: &mut [u8],
    cells: &mut [usize],
    marks: &mut [u8],
    keys: &mut [usize],
) -> io::Result<()> {
    match file_calendar(input, driver, stamp, output, cells, marks, keys) {
        Err(refusal) => refuse(rt, refusal),
        Ok(n) => rt.write_all(&output[..n]),
    }
}

// The calendar of a driver in the input. The room is made here: some 610,000 bytes of stack.
fn write(rt: &impl Print, input: &[u8], driver: usize, stamp: &[u8]) -> io::Result<()> {
    let mut output: [u8; OUTPUT_ROOM] = [0; OUTPUT_ROOM];
    let mut cells: [usize; CELLS_ROOM] = [0; CELLS_ROOM];
    let mut marks: [u8; MARKS_ROOM] = [0; MARKS_ROOM];
    let mut keys: [usize; KEYS_ROOM] = [0; KEYS_ROOM];
    answer(
        rt,
        input,
        driver,
        stamp,
        &mut output,
        &mut cells,
        &mut marks,
        &mut keys,
    )
}

// The calendar of a driver in the roster file that standard input is.
fn read(rt: &(impl Print + Input), driver: usize, stamp: &[u8]) -> io::Result<()> {
    let mut input: [u8; INPUT_ROOM] = [0; INPUT_ROOM];
    let Ok(count) = read_input(&mut rt.reader(), &mut input) else {
        return refuse(rt, Refusal::Malformed);
    };
    write(rt, &input[..count], driver, stamp)
}

// The second argument is the driver, a bare decimal; the third is the stamp.
pub fn run(rt: &(impl Print + Input + Env)) -> io::Result<()> {
    let mut number = [0u8; ARGUMENT_ROOM];
    let size = argument(rt, 2, &mut number);
    let Some(driver) = read_decimal(&number[..size]) else {
        return refuse(rt, Refusal::Malformed);
    };
    let mut stamp = [0u8; ARGUMENT_ROOM];
    let long = argument(rt, 3, &mut stamp);
    read(rt, driver, &stamp[..long])
}
