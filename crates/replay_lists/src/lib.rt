// Questions of a list whose answers are lists themselves, or a cursor: put to the entry under its C name, and held to
// what the list says. docs/RULES.md, 6 to 10.

#![tactic(auto)]

mod cursors;
mod ejections;
mod lists;

use show::Page;
use vector_answers::Question;
use vector_boards::Lent;

// The question put to the entry whose number it has; no other number is answered as the list says.
pub fn list(
    page: &mut Page,
    line: &[usize],
    asked: Question,
    lent: Lent,
    marks: &[u8],
    keys: &[usize],
    ranks: &[i64],
    records: &[usize],
    members: &[usize],
) -> bool {
    let entry = asked.entry;
    match entry {
        17 => lists::capacity_conflicts(
            page, line, asked, lent, marks, keys, ranks, records, members,
        ),
        18 => lists::path(
            page, line, asked, lent, marks, keys, ranks, records, members,
        ),
        20 => lists::order(
            page, line, asked, lent, marks, keys, ranks, records, members,
        ),
        22 => cursors::step(
            page, line, asked, lent, marks, keys, ranks, records, members,
        ),
        23 => lists::ejection(
            page, line, asked, lent, marks, keys, ranks, records, members,
        ),
        25 => ejections::reinsert_step(
            page, line, asked, lent, marks, keys, ranks, records, members,
        ),
        21 => cursors::new_cursor(page, line, asked),
        24 => ejections::new_ejection_cursor(page, line, asked),
        _ => false,
    }
}
