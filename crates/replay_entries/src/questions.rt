// Questions that are answered by a code or a flag.
use engine::{index, questions, search};
use show::Page;
use vector_answers::Question;
use vector_answers::answers::same_answer;
use vector_answers::asked::number;
use vector_boards::Lent;
use vector_differences::{FLAG_BEFORE, NUMBER_BEFORE};
use vector_words::part_of;

fn same_code(page: &mut Page, line: &[usize], asked: Question, code: u8) -> bool {
    same_answer(page, line, asked, code, FLAG_BEFORE, &[NUMBER_BEFORE])
}

fn same_flag(page: &mut Page, line: &[usize], asked: Question, code: u8, flag: u8) -> bool {
    same_answer(page, line, asked, code, flag, &[NUMBER_BEFORE])
}

fn tables_refusal(
    page: &mut Page,
    line: &[usize],
    asked: Question,
    lent: Lent,
    marks: &[u8],
    keys: &[usize],
    ranks: &[i64],
) -> bool {
    let code = index::turepawon_tables_refusal(
        lent.rows,
        lent.values,
        lent.edge_rule,
        marks,
        keys,
        ranks,
    );
    same_code(page, line, asked, code)
}

fn admit(
    page: &mut Page,
    line: &[usize],
    asked: Question,
    lent: Lent,
    marks: &[u8],
    keys: &[usize],
    ranks: &[i64],
    records: &[usize],
    members: &[usize],
) -> bool {
    let code = index::turepawon_admit(
        lent.rows,
        lent.values,
        lent.edge_rule,
        marks,
        keys,
        ranks,
        records,
        members,
    );
    same_code(page, line, asked, code)
}

fn feasible(
    page: &mut Page,
    line: &[usize],
    asked: Question,
    lent: Lent,
    marks: &[u8],
    keys: &[usize],
    ranks: &[i64],
    records: &[usize],
    members: &[usize],
) -> bool {
    let mut flag = FLAG_BEFORE;
    let code = questions::turepawon_assignment_feasible_after_edits(
        lent.rows,
        lent.values,
        lent.edge_rule,
        marks,
        keys,
        ranks,
        records,
        members,
        part_of(line, asked.first_list),
        part_of(line, asked.second_list),
        &mut flag,
    );
    same_flag(page, line, asked, code, flag)
}

fn reinsert(
    page: &mut Page,
    line: &[usize],
    asked: Question,
    lent: Lent,
    marks: &[u8],
    keys: &[usize],
    ranks: &[i64],
    records: &[usize],
    members: &[usize],
) -> bool {
    let mut flag = FLAG_BEFORE;
    let code = questions::turepawon_reinsert_value_allowed(
        lent.rows,
        lent.values,
        lent.edge_rule,
        marks,
        keys,
        ranks,
        records,
        members,
        part_of(line, asked.first_list),
        part_of(line, asked.second_list),
        number(line, asked, 0),
        number(line, asked, 1),
        &mut flag,
    );
    same_flag(page, line, asked, code, flag)
}

fn sound(
    page: &mut Page,
    line: &[usize],
    asked: Question,
    lent: Lent,
    marks: &[u8],
    keys: &[usize],
    ranks: &[i64],
    records: &[usize],
    members: &[usize],
) -> bool {
    let mut flag = FLAG_BEFORE;
    let code = questions::turepawon_roster_sound(
        lent.rows,
        lent.values,
        lent.edge_rule,
        marks,
        keys,
        ranks,
        records,
        members,
        &mut flag,
    );
    same_flag(page, line, asked, code, flag)
}

fn ceiling(page: &mut Page, line: &[usize], asked: Question) -> bool {
    let mut most = NUMBER_BEFORE;
    let code = search::turepawon_ask_ceiling(
        number(line, asked, 0),
        number(line, asked, 1),
        &mut most,
    );
    same_answer(page, line, asked, code, FLAG_BEFORE, &[most])
}

// The question put to the entry whose number it has; no other number is answered as the list says.
pub fn verdict(
    page: &mut Page,
    line: &[usize],
    asked: Question,
    lent: Lent,
    marks: &[u8],
    keys: &[usize],
    ranks: &[i64],
    records: &[usize],
    members: &[usize],
) -> bool {
    let entry = asked.entry;
    match entry {
        10 => tables_refusal(page, line, asked, lent, marks, keys, ranks),
        11 => admit(
            page, line, asked, lent, marks, keys, ranks, records, members,
        ),
        14 => feasible(
            page, line, asked, lent, marks, keys, ranks, records, members,
        ),
        15 => reinsert(
            page, line, asked, lent, marks, keys, ranks, records, members,
        ),
        16 => sound(
            page, line, asked, lent, marks, keys, ranks, records, members,
        ),
        19 => ceiling(page, line, asked),
        _ => false,
    }
}
