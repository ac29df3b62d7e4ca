// Roster A's index, built and then refreshed.
use crate::board::{KEYS_OF_T, MARKS_OF_T, RANKS_OF_T};
use crate::index::{Answer, IndexCells};
use crate::{board, index};
use assignment_tables::EMPTY;
use assignment_updates::refresh;
use refusals::codes::code;
use show::Page;

fn refreshed(index: IndexCells, list_rows: &[usize], list_values: &[usize]) -> Answer {
    let mut marks = [0u8; MARKS_OF_T];
    let mut keys = [0usize; KEYS_OF_T];
    let ranks = [0i64; RANKS_OF_T];
    board::pack_t(&mut marks, &mut keys);
    let mut records = index.records;
    let mut members = index.members;
    let tables = board::lent_t(&marks, &keys, &ranks);
    let refused = refresh::refresh_rows(
        &tables,
        &mut records,
        &mut members,
        list_rows,
        list_values,
    );
    Answer {
        refused,
        index: IndexCells { records, members },
    }
}

// Row 3 leaves its value to row 2.
fn show_refreshed(page: &mut Page, index: IndexCells) {
    let answer = refreshed(index, &[3, 2], &[EMPTY, 2]);
    let after = answer.index;
    show::text(page, b"refreshed by row 3 to empty, row 2 to 2: answer ");
    show::number(page, code(answer.refused) as usize);
    show::line(page);
    index::show_index(page, after);
    show::line(page);
}

pub fn show_refreshes(page: &mut Page) {
    show::text(page, b"roster A: 0, 1, empty, 2\n");
    let of_a = index::built(&[0, 1, EMPTY, 2]);
    index::show_index(page, of_a);
    show::line(page);
    show_refreshed(page, of_a);
}
