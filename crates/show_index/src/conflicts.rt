// Roster B's index, and who is in conflict. Outputs hold nines before, to show what is written.
use crate::board::{KEYS_OF_T, MARKS_OF_T, RANKS_OF_T};
use crate::index::IndexCells;
use crate::{board, index};
use assignment_conflicts::listing;
use assignment_index::Index;
use assignment_tables::EMPTY;
use refusals::Refusal;
use show::Page;

// A list fills the front of its output.
fn show_list(page: &mut Page, label: &[u8], output: &[usize], listed: usize) {
    show::part(page, label, output, 0, listed);
    show::part(
        page,
        b"  cells behind          ",
        output,
        listed,
        output.len(),
    );
}

fn show_answer(
    page: &mut Page,
    answer: Result<usize, Refusal>,
    out_keys: &[usize],
    out_rows: &[usize],
) {
    match answer {
        Err(_) => show::text(page, b"refused\n"),
        Ok(listed) => {
            show::text(page, b"holders in conflict: ");
            show::number(page, listed);
            show::line(page);
            show_list(page, b"  their keys            ", out_keys, listed);
            show_list(page, b"  their rows            ", out_rows, listed);
        }
    }
}

fn ask(
    index: IndexCells,
    out_keys: &mut [usize],
    out_rows: &mut [usize],
) -> Result<usize, Refusal> {
    let mut marks = [0u8; MARKS_OF_T];
    let mut keys = [0usize; KEYS_OF_T];
    let ranks = [0i64; RANKS_OF_T];
    board::pack_t(&mut marks, &mut keys);
    let tables = board::lent_t(&marks, &keys, &ranks);
    let lent = Index {
        records: &index.records,
        members: &index.members,
    };
    listing::capacity_conflicts(&tables, &lent, out_keys, out_rows)
}

fn show_listed(page: &mut Page, index: IndexCells) {
    let mut out_keys = [9usize; 6];
    let mut out_rows = [9usize; 6];
    let answer = ask(index, &mut out_keys, &mut out_rows);
    show_answer(page, answer, &out_keys, &out_rows);
}

pub fn show_conflicts(page: &mut Page) {
    show::text(page, b"roster B: 0, 0, empty, 0\n");
    let of_b = index::built(&[0, 0, EMPTY, 0]);
    index::show_index(page, of_b);
    show_listed(page, of_b);
}
