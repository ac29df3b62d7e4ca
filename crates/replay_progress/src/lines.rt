// Lines that are no questions.
use crate::Progress;
use crate::index::Index;
use replay_report::{ENTRIES, show_counts};
use show::Page;
use vector_boards::{KEYS, MARKS, RANKS, board};
use vector_words::word;

// The end of a list: the next one begins with what is lent.
fn finish(page: &mut Page, progress: Progress) -> Progress {
    if !progress.stopped {
        show_counts(page, &progress.answered, progress.total);
    }
    let mut next = progress;
    next.answered = [0; ENTRIES];
    next.total = 0;
    next.stopped = false;
    next
}

// A whole board: the lengths, then six tables.
fn read_board(
    line: &[usize],
    progress: Progress,
    marks: &mut [u8; MARKS],
    keys: &mut [usize; KEYS],
    ranks: &mut [i64; RANKS],
) -> Progress {
    let mut room = [0usize; MARKS];
    let index = progress.index;
    let mut records = index.records;
    let mut members = index.members;
    let mut roster = progress.roster;
    let at = board::read_tables(line, 10, &mut room, marks, keys, ranks);
    board::read_index(line, at, &mut records, &mut members, &mut roster);
    let read = Index {
        records: records,
        members: members,
    };
    let lent = board::read_lent(line, 1);
    let mut next = progress;
    next.lent = lent;
    next.index = read;
    next.roster = roster;
    next
}

// One cell of one table.
fn change(
    line: &[usize],
    progress: Progress,
    marks: &mut [u8; MARKS],
    keys: &mut [usize; KEYS],
    ranks: &mut [i64; RANKS],
) -> Progress {
    let table = word(line, 1);
    let at = word(line, 2);
    let cell = word(line, 3);
    let index = progress.index;
    let mut records = index.records;
    let mut members = index.members;
    let mut roster = progress.roster;
    board::change_table(table, at, cell, marks, keys, ranks);
    board::change_index(table, at, cell, &mut records, &mut members, &mut roster);
    let changed = Index {
        records: records,
        members: members,
    };
    let mut next = progress;
    next.index = changed;
    next.roster = roster;
    next
}

// Other lengths of what is lent.
fn relend(line: &[usize], progress: Progress) -> Progress {
    let lent = board::read_lent(line, 1);
    let mut next = progress;
    next.lent = lent;
    next
}

// A line by its first word: 0 ends the list, 1 is a board, 2 a change, 3 other lengths.
pub fn take(
    page: &mut Page,
    line: &[usize],
    progress: Progress,
    marks: &mut [u8; MARKS],
    keys: &mut [usize; KEYS],
    ranks: &mut [i64; RANKS],
) -> Progress {
    let kind = word(line, 0);
    match kind {
        0 => finish(page, progress),
        1 => read_board(line, progress, marks, keys, ranks),
        2 => change(line, progress, marks, keys, ranks),
        _ => relend(line, progress),
    }
}
