// Questions that are answered by a list in one or two outputs.
use engine::{conflicts, search, windows};
use show::Page;
use vector_answers::Question;
use vector_answers::answers::same_list;
use vector_answers::asked::{first_room, number, second_room};
use vector_boards::Lent;
use vector_cells::{byte, output};
use vector_differences::{FLAG_BEFORE, NUMBER_BEFORE};
use vector_words::part_of;

pub fn capacity_conflicts(
    page: &mut Page,
    line: &[usize],
    asked: Question,
    lent: Lent,
    marks: &[u8],
    keys: &[usize],
    ranks: &[i64],
    records: &[usize],
    members: &[usize],
) -> bool {
    let mut first = output();
    let mut second = output();
    let room = first_room(line, asked);
    let more = second_room(line, asked);
    let mut count = NUMBER_BEFORE;
    let code = conflicts::turepawon_capacity_conflicts(
        lent.rows,
        lent.values,
        lent.edge_rule,
        marks,
        keys,
        ranks,
        records,
        members,
        &mut first[0..room],
        &mut second[0..more],
        &mut count,
    );
    same_list(
        page,
        line,
        asked,
        code,
        FLAG_BEFORE,
        &[count],
        &first,
        &second,
    )
}

pub fn path(
    page: &mut Page,
    line: &[usize],
    asked: Question,
    lent: Lent,
    marks: &[u8],
    keys: &[usize],
    ranks: &[i64],
    records: &[usize],
    members: &[usize],
) -> bool {
    let mut first = output();
    let mut second = output();
    let room = first_room(line, asked);
    let more = second_room(line, asked);
    let mut found = FLAG_BEFORE;
    let mut asks = NUMBER_BEFORE;
    let mut count = NUMBER_BEFORE;
    let code = search::turepawon_assignment_move_for_entity_value(
        lent.rows,
        lent.values,
        lent.edge_rule,
        marks,
        keys,
        ranks,
        records,
        members,
        number(line, asked, 0),
        number(line, asked, 1),
        number(line, asked, 2),
        byte(number(line, asked, 3)),
        number(line, asked, 4),
        number(line, asked, 5),
        &mut first[0..room],
        &mut second[0..more],
        &mut found,
        &mut asks,
        &mut count,
    );
    same_list(
        page,
        line,
        asked,
        code,
        found,
        &[count, asks],
        &first,
        &second,
    )
}

pub fn order(
    page: &mut Page,
    line: &[usize],
    asked: Question,
    lent: Lent,
    marks: &[u8],
    keys: &[usize],
    ranks: &[i64],
    records: &[usize],
    members: &[usize],
) -> bool {
    let mut first = output();
    let second = output();
    let room = first_room(line, asked);
    let mut count = NUMBER_BEFORE;
    let code = windows::turepawon_assigned_entities_by_position(
        lent.rows,
        lent.values,
        lent.edge_rule,
        marks,
        keys,
        ranks,
        records,
        members,
        number(line, asked, 0),
        &mut first[0..room],
        &mut count,
    );
    same_list(
        page,
        line,
        asked,
        code,
        FLAG_BEFORE,
        &[count],
        &first,
        &second,
    )
}

pub fn ejection(
    page: &mut Page,
    line: &[usize],
    asked: Question,
    lent: Lent,
    marks: &[u8],
    keys: &[usize],
    ranks: &[i64],
    records: &[usize],
    members: &[usize],
) -> bool {
    let mut first = output();
    let mut second = output();
    let room = first_room(line, asked);
    let more = second_room(line, asked);
    let mut listed = FLAG_BEFORE;
    let mut count = NUMBER_BEFORE;
    let code = windows::turepawon_ejection_reinsert_edits(
        lent.rows,
        lent.values,
        lent.edge_rule,
        marks,
        keys,
        ranks,
        records,
        members,
        part_of(line, asked.first_list),
        number(line, asked, 0),
        number(line, asked, 1),
        &mut first[0..room],
        &mut second[0..more],
        &mut listed,
        &mut count,
    );
    same_list(page, line, asked, code, listed, &[count], &first, &second)
}
