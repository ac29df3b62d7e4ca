// The parts of an answer, each held to the list's; the first difference is printed.
ghost use Rattle.std.specs.Prelude.{◌≡◌, ◌&&◌};
ghost use Rattle.vector_answers.specs.Questions.{code_of, flag_of};
ghost use Rattle.vector_answers.specs.Answers.{told_at, same_told_at, same_told, same_answer, same_outputs};

use crate::Question;
use crate::left::same_output;
use show::Page;
use vector_cells::OUTPUT;
use vector_differences::{NUMBER_BEFORE, same_cell, same_number};
use vector_words::{ahead, part_of, word};

// A number that a call told: of the list, and behind it what stood there before.
fn told_at(expected: &[usize], at: usize) -> usize
    ensures { result ≡ told_at expected.now at }
{
    if at < expected.len() {
        return expected[at];
    }
    NUMBER_BEFORE
}

fn same_told_at(page: &mut Page, expected: &[usize], told: &[usize], at: usize) -> bool
    ensures { result ≡ same_told_at expected.now told.now at }
{
    same_cell(page, b"number", at, told_at(expected, at), word(told, at))
}

fn same_told(page: &mut Page, expected: &[usize], told: &[usize]) -> bool
    ensures { result ≡ same_told expected.now told.now }
{
    for i in 0..told.len() {
        if !same_told_at(page, expected, told, i) {
            return false;
        }
    }
    true
}

fn code_of(line: &[usize], asked: Question) -> usize
    ensures { result ≡ code_of line.now asked }
{
    word(line, ahead(asked.rooms, 2))
}

fn flag_of(line: &[usize], asked: Question) -> usize
    ensures { result ≡ flag_of line.now asked }
{
    word(line, ahead(asked.rooms, 3))
}

// Code, flag and numbers.
pub fn same_answer(
    page: &mut Page,
    line: &[usize],
    asked: Question,
    code: u8,
    flag: u8,
    told: &[usize],
) -> bool
    ensures { result ≡ same_answer line.now asked code flag told.now }
{
    if !same_number(page, b"code", code_of(line, asked), code as usize) {
        return false;
    }
    if !same_number(page, b"flag", flag_of(line, asked), flag as usize) {
        return false;
    }
    same_told(page, part_of(line, asked.told), told)
}

// Both outputs, with the cells behind their rooms.
fn same_outputs(
    page: &mut Page,
    line: &[usize],
    asked: Question,
    first: &[usize; OUTPUT],
    second: &[usize; OUTPUT],
) -> bool
    ensures { result ≡ same_outputs line.now asked first.now second.now }
{
    if !same_output(
        page,
        b"first output, cell",
        part_of(line, asked.first_front),
        first,
    ) {
        return false;
    }
    same_output(
        page,
        b"second output, cell",
        part_of(line, asked.second_front),
        second,
    )
}

// A list that is given back, with its code, flag and numbers.
pub fn same_list(
    page: &mut Page,
    line: &[usize],
    asked: Question,
    code: u8,
    flag: u8,
    told: &[usize],
    first: &[usize; OUTPUT],
    second: &[usize; OUTPUT],
) -> bool
    ensures { result ≡ same_answer line.now asked code flag told.now && same_outputs line.now asked first.now second.now }
{
    if !same_answer(page, line, asked, code, flag, told) {
        return false;
    }
    same_outputs(page, line, asked, first, second)
}
