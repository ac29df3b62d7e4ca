// How far a list has come, as one value, and what a line that is no question makes of it: the end of the list, a board,
// a change of a cell, other lengths.

#![tactic(auto)]

pub mod index;
pub mod lines;

use crate::index::{Change, Index};
use replay_report::{ENTRIES, show_difference};
use show::Page;
use vector_boards::{Lent, MEMBERS, RECORDS, ROSTER, board};
use vector_words::ahead;

// What is lent, beside the tables: the lengths, the index and the roster; the index that is kept from call to call; how
// many questions of each entry were answered as the list says, how many in all, and whether one was not.
#[derive(Clone, Copy)]
pub struct Progress {
    pub lent: Lent,
    pub index: Index,
    pub roster: [usize; ROSTER],
    pub kept: Index,
    pub answered: [usize; ENTRIES],
    pub total: usize,
    pub stopped: bool,
}

fn no_index() -> Index {
    Index {
        records: [0; RECORDS],
        members: [0; MEMBERS],
    }
}

// Before the first line.
pub fn begin() -> Progress {
    let index = no_index();
    Progress {
        lent: board::nothing(),
        index: index,
        roster: [0; ROSTER],
        kept: index,
        answered: [0; ENTRIES],
        total: 0,
        stopped: false,
    }
}

fn counting(progress: Progress, entry: usize) -> Progress {
    let mut next = progress;
    if entry < ENTRIES {
        next.answered[entry] = ahead(next.answered[entry], 1);
    }
    next.total = ahead(next.total, 1);
    next
}

fn stopping(page: &mut Page, progress: Progress, entry: usize) -> Progress {
    show_difference(page, ahead(progress.total, 1), entry);
    let mut next = progress;
    next.stopped = true;
    next
}

// A question was put, and its answer was the list's or was not.
pub fn answered(page: &mut Page, progress: Progress, entry: usize, same: bool) -> Progress {
    if same {
        return counting(progress, entry);
    }
    stopping(page, progress, entry)
}

// The same of a question that changed an index, which is kept.
pub fn changed(page: &mut Page, progress: Progress, entry: usize, change: Change) -> Progress {
    let mut next = progress;
    let index = change.index;
    next.kept = index;
    answered(page, next, entry, change.same)
}
