// An index of board T as one value, and how a person reads it.
use crate::board;
use crate::board::{KEYS_OF_T, MARKS_OF_T, MEMBERS_OF_T, RANKS_OF_T, RECORDS_OF_T};
use assignment_index::Index;
use assignment_state::admit;
use assignment_updates::refresh;
use refusals::Refusal;
use refusals::codes::code;
use show::Page;

#[derive(Clone, Copy)]
pub struct IndexCells {
    pub records: [usize; RECORDS_OF_T],
    pub members: [usize; MEMBERS_OF_T],
}

// Whether a refresh was refused, and the index afterwards.
#[derive(Clone, Copy)]
pub struct Answer {
    pub refused: Result<(), Refusal>,
    pub index: IndexCells,
}

// The slices hold nines before, to show that every cell is written; a refusal would leave them.
pub fn built(roster: &[usize]) -> IndexCells {
    let mut marks = [0u8; MARKS_OF_T];
    let mut keys = [0usize; KEYS_OF_T];
    let ranks = [0i64; RANKS_OF_T];
    board::pack_t(&mut marks, &mut keys);
    let mut records = [9usize; RECORDS_OF_T];
    let mut members = [9usize; MEMBERS_OF_T];
    let tables = board::lent_t(&marks, &keys, &ranks);
    let _ = refresh::build_index(&tables, roster, &mut records, &mut members);
    IndexCells { records, members }
}

fn show_records(page: &mut Page, records: &[usize]) {
    show::text(page, b"records, a cell a row\n");
    show::part(page, b"  value held            ", records, 0, 4);
    show::part(page, b"  capacity given        ", records, 4, 8);
    show::part(page, b"  capacity              ", records, 8, 12);
    show::part(page, b"  sequence given        ", records, 12, 16);
    show::part(page, b"  sequence              ", records, 16, 20);
}

fn show_members(page: &mut Page, members: &[usize]) {
    show::text(page, b"members, a count, then rows, then zeros\n");
    show::part(page, b"  by capacity           ", members, 0, 5);
    show::part(page, b"  by value              ", members, 5, 10);
    show::part(page, b"  by value and sequence ", members, 10, 15);
}

fn admission(index: IndexCells) -> Result<(), Refusal> {
    let mut marks = [0u8; MARKS_OF_T];
    let mut keys = [0usize; KEYS_OF_T];
    let ranks = [0i64; RANKS_OF_T];
    board::pack_t(&mut marks, &mut keys);
    let tables = board::lent_t(&marks, &keys, &ranks);
    let lent = Index {
        records: &index.records,
        members: &index.members,
    };
    admit::admit(&tables, &lent, true)
}

pub fn show_index(page: &mut Page, index: IndexCells) {
    show_records(page, &index.records);
    show_members(page, &index.members);
    show::text(page, b"admit answers ");
    show::number(page, code(admission(index)) as usize);
    show::line(page);
}
