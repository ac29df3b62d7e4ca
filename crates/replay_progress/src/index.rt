// An index as a value: the one that is lent, and the one that a call leaves.
use show::Page;
use vector_answers::Question;
use vector_answers::answers::same_answer;
use vector_answers::asked::number;
use vector_boards::tables::table;
use vector_boards::{Lent, MEMBERS, RECORDS};
use vector_cells::fill_before;
use vector_differences::{NUMBER_BEFORE, same_cells, same_number};
use vector_words::front;

#[derive(Clone, Copy)]
pub struct Index {
    pub records: [usize; RECORDS],
    pub members: [usize; MEMBERS],
}

// What a call left, and whether all that can be seen of its answer is the list's.
#[derive(Clone, Copy)]
pub struct Change {
    pub index: Index,
    pub same: bool,
}

// Build writes into cells that hold what stands in an output before a call.
fn before_build() -> Index {
    let mut records = [0usize; RECORDS];
    let mut members = [0usize; MEMBERS];
    fill_before(&mut records);
    fill_before(&mut members);
    Index {
        records: records,
        members: members,
    }
}

// What a call begins with. Refresh and apply begin with the index that is lent, or, as the question's number says, go on
// from the one that the call before left.
pub fn before_change(line: &[usize], asked: Question, lent: Index, kept: Index) -> Index {
    if asked.entry == 12 {
        return before_build();
    }
    if number(line, asked, 0) == 0 {
        return lent;
    }
    kept
}

fn same_index(
    page: &mut Page,
    line: &[usize],
    asked: Question,
    records: &[usize],
    members: &[usize],
) -> bool {
    let mut room = [0usize; RECORDS];
    let recorded = table(line, asked.index, &mut room);
    if !same_number(page, b"records in all", recorded.cells, records.len()) {
        return false;
    }
    if !same_cells(page, b"record", &room, records, records.len()) {
        return false;
    }
    let listed = table(line, recorded.at, &mut room);
    if !same_number(page, b"members in all", listed.cells, members.len()) {
        return false;
    }
    same_cells(page, b"member", &room, members, members.len())
}

// Code and flag, and then the cells that were lent to the call.
pub fn same_change(
    page: &mut Page,
    line: &[usize],
    asked: Question,
    lent: Lent,
    code: u8,
    flag: u8,
    records: &[usize],
    members: &[usize],
) -> bool {
    if !same_answer(page, line, asked, code, flag, &[NUMBER_BEFORE]) {
        return false;
    }
    same_index(
        page,
        line,
        asked,
        front(records, lent.records),
        front(members, lent.members),
    )
}
