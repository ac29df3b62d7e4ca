// What programs print with, on standard output. No contract can say what is written: each function
// is proved to be safe and to end.

#![tactic(auto)]

use assignment_tables::EMPTY;
use std::io;
use std::io::{Print, Stdout};

// Standard output, and how the writing went: after a write that fails nothing more is written.
#[derive(Drop)]
pub struct Page {
    output: Stdout,
    written: io::Result<()>,
}

impl Page {
    pub fn new(output: Stdout) -> Page {
        Page {
            output,
            written: Ok(()),
        }
    }

    // What `main` answers.
    pub fn end(self) -> io::Result<()> {
        self.written
    }
}

pub fn text(page: &mut Page, bytes: &[u8]) {
    if page.written.is_ok() {
        page.written = page.output.write_all(bytes);
    }
}

pub fn line(page: &mut Page) {
    text(page, b"\n");
}

pub fn number(page: &mut Page, n: usize) {
    if page.written.is_ok() {
        page.written = page.output.print(n);
    }
}

// A value or a key; 2^64 - 1 is an empty row's value.
fn cell(page: &mut Page, cell: usize) {
    if cell == EMPTY {
        text(page, b" empty");
    } else {
        text(page, b" ");
        number(page, cell);
    }
}

pub fn cells(page: &mut Page, label: &[u8], cells: &[usize]) {
    text(page, label);
    for value in cells {
        cell(page, *value);
    }
    line(page);
}

// The cells from one number to before another, if there are so many.
pub fn part(page: &mut Page, label: &[u8], all: &[usize], from: usize, to: usize) {
    if from <= to && to <= all.len() {
        cells(page, label, &all[from..to]);
    }
}
