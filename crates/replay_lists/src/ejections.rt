// The cursor over the windows of an order whose rows are lifted out and put back: the first, and its steps.
use engine::ejections;
use show::Page;
use vector_answers::Question;
use vector_answers::answers::{same_answer, same_list};
use vector_answers::asked::{first_room, number, second_room};
use vector_boards::Lent;
use vector_cells::output;
use vector_differences::{FLAG_BEFORE, NUMBER_BEFORE};
use vector_words::part_of;

pub fn new_ejection_cursor(page: &mut Page, line: &[usize], asked: Question) -> bool {
    let mut start = NUMBER_BEFORE;
    let mut length = NUMBER_BEFORE;
    let mut variant = NUMBER_BEFORE;
    let mut longest = NUMBER_BEFORE;
    let code = ejections::turepawon_new_ejection_cursor(
        number(line, asked, 0),
        number(line, asked, 1),
        &mut start,
        &mut length,
        &mut variant,
        &mut longest,
    );
    same_answer(
        page,
        line,
        asked,
        code,
        FLAG_BEFORE,
        &[start, length, variant, longest],
    )
}

pub fn reinsert_step(
    page: &mut Page,
    line: &[usize],
    asked: Question,
    lent: Lent,
    marks: &[u8],
    keys: &[usize],
    ranks: &[i64],
    records: &[usize],
    members: &[usize],
) -> bool {
    let mut first = output();
    let mut second = output();
    let room = first_room(line, asked);
    let more = second_room(line, asked);
    let mut start = number(line, asked, 0);
    let mut length = number(line, asked, 1);
    let mut variant = number(line, asked, 2);
    let mut longest = number(line, asked, 3);
    let mut moved = FLAG_BEFORE;
    let mut count = NUMBER_BEFORE;
    let code = ejections::turepawon_next_ejection_reinsert(
        lent.rows,
        lent.values,
        lent.edge_rule,
        marks,
        keys,
        ranks,
        records,
        members,
        part_of(line, asked.first_list),
        &mut start,
        &mut length,
        &mut variant,
        &mut longest,
        number(line, asked, 4),
        &mut first[0..room],
        &mut second[0..more],
        &mut moved,
        &mut count,
    );
    let told = [count, start, length, variant, longest];
    same_list(page, line, asked, code, moved, &told, &first, &second)
}
