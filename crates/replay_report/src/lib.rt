// What a replay prints: how many answers were the list's, by entry and in all, and at which question a
// list broke off.

#![tactic(auto)]

use show::Page;

// The numbers of the entries are below this one.
pub const ENTRIES: usize = 29;

// The entries by the numbers that the lists give them.
fn show_name(page: &mut Page, entry: usize) {
    match entry {
        10 => show::text(page, b"tables_refusal"),
        11 => show::text(page, b"admit"),
        12 => show::text(page, b"build_index"),
        13 => show::text(page, b"refresh_rows"),
        14 => show::text(page, b"assignment_feasible_after_edits"),
        15 => show::text(page, b"reinsert_value_allowed"),
        16 => show::text(page, b"roster_sound"),
        17 => show::text(page, b"capacity_conflicts"),
        18 => show::text(page, b"assignment_move_for_entity_value"),
        19 => show::text(page, b"ask_ceiling"),
        20 => show::text(page, b"assigned_entities_by_position"),
        21 => show::text(page, b"new_cursor"),
        22 => show::text(page, b"next_augmenting_rematch"),
        23 => show::text(page, b"ejection_reinsert_edits"),
        24 => show::text(page, b"new_ejection_cursor"),
        25 => show::text(page, b"next_ejection_reinsert"),
        26 => show::text(page, b"assignment_apply_edits"),
        27 => show::text(page, b"driver_calendar"),
        28 => show::text(page, b"read_calendar"),
        _ => show::text(page, b"an unknown entry"),
    }
}

fn show_count(page: &mut Page, entry: usize, answered: usize) {
    if answered == 0 {
        return;
    }
    show_name(page, entry);
    show::text(page, b" ");
    show::number(page, answered);
    show::line(page);
}

// The end of a list whose answers all agreed.
pub fn show_counts(page: &mut Page, answered: &[usize; ENTRIES], total: usize) {
    for (entry, count) in answered.iter().enumerate() {
        show_count(page, entry, *count);
    }
    show::number(page, total);
    show::text(page, b" answers, and all are the list's");
    show::line(page);
}

// The question whose answer was another.
pub fn show_difference(page: &mut Page, question: usize, entry: usize) {
    show::text(page, b"  that is question ");
    show::number(page, question);
    show::text(page, b", to ");
    show_name(page, entry);
    show::line(page);
}

// A line that is no list of decimals.
pub fn show_malformed(page: &mut Page, line: usize) {
    show::text(page, b"no list of decimals is line ");
    show::number(page, line);
    show::line(page);
}
