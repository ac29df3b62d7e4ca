// Questions of a list about calendars: put to the entry under its C name, and held to what the list says. docs/RULES.md, 13.

#![tactic(auto)]

ghost use Rattle.std.specs.Prelude.{◌≤◌};

use engine::calendars;
use show::Page;
use vector_answers::Question;
use vector_answers::answers::{same_answer, same_list};
use vector_answers::asked::{first_room, number, second_room};
use vector_boards::Lent;
use vector_boards::marks_and_ranks::to_marks;
use vector_cells::output;
use vector_differences::{FLAG_BEFORE, NUMBER_BEFORE, same_cell};
use vector_words::{part_of, word};

// The octets of a text, or of an output: those that a call may not touch stand behind its room.
const OCTETS: usize = 1200;

// What stands in an octet of an output before a call: no octet of a calendar.
const OCTET_BEFORE: u8 = 200;

// No more than there are octets.
fn within(count: usize) -> usize
    ensures { result ≤ 1200 }
{
    if count < OCTETS {
        return count;
    }
    OCTETS
}

fn wide(octet: u8) -> usize {
    octet as usize
}

// An octet of the output: of the front, or what was there before.
fn same_octet(page: &mut Page, front: &[usize], seen: u8, at: usize) -> bool {
    if at < front.len() {
        return same_cell(page, b"first output, cell", at, front[at], wide(seen));
    }
    same_cell(
        page,
        b"first output, cell",
        at,
        wide(OCTET_BEFORE),
        wide(seen),
    )
}

fn same_octets(page: &mut Page, front: &[usize], seen: &[u8; OCTETS]) -> bool {
    for (at, octet) in seen.iter().enumerate() {
        if !same_octet(page, front, *octet, at) {
            return false;
        }
    }
    true
}

fn written(
    page: &mut Page,
    line: &[usize],
    asked: Question,
    lent: Lent,
    marks: &[u8],
    keys: &[usize],
    ranks: &[i64],
    records: &[usize],
    members: &[usize],
) -> bool {
    let cells = part_of(line, asked.first_list);
    let size = within(cells.len());
    let mut stamp = [0u8; OCTETS];
    to_marks(cells, size, &mut stamp);
    let mut out = [OCTET_BEFORE; OCTETS];
    let room = within(word(line, asked.rooms));
    let mut count = NUMBER_BEFORE;
    let code = calendars::turepawon_driver_calendar(
        lent.rows,
        lent.values,
        lent.edge_rule,
        marks,
        keys,
        ranks,
        records,
        members,
        number(line, asked, 0),
        &stamp[0..size],
        &mut out[0..room],
        &mut count,
    );
    if !same_answer(page, line, asked, code, FLAG_BEFORE, &[count]) {
        return false;
    }
    same_octets(page, part_of(line, asked.first_front), &out)
}

fn read(page: &mut Page, line: &[usize], asked: Question) -> bool {
    let cells = part_of(line, asked.first_list);
    let size = within(cells.len());
    let mut octets = [0u8; OCTETS];
    to_marks(cells, size, &mut octets);
    let mut first = output();
    let mut second = output();
    let room = first_room(line, asked);
    let more = second_room(line, asked);
    let mut count = NUMBER_BEFORE;
    let code = calendars::turepawon_read_calendar(
        &octets[0..size],
        &mut first[0..room],
        &mut second[0..more],
        &mut count,
    );
    same_list(
        page,
        line,
        asked,
        code,
        FLAG_BEFORE,
        &[count],
        &first,
        &second,
    )
}

// The question put to the entry whose number it has; no other number is answered as the list says.
pub fn calendar(
    page: &mut Page,
    line: &[usize],
    asked: Question,
    lent: Lent,
    marks: &[u8],
    keys: &[usize],
    ranks: &[i64],
    records: &[usize],
    members: &[usize],
) -> bool {
    let entry = asked.entry;
    match entry {
        27 => written(
            page, line, asked, lent, marks, keys, ranks, records, members,
        ),
        28 => read(page, line, asked),
        _ => false,
    }
}
