// What is lent: read from a line, or changed in a few cells.
ghost use Rattle.std.specs.Prelude.{◌%◌, ◌≡◌, eqb};
ghost use Rattle.vector_boards.specs.Tables.{table_in, signed};
ghost use Rattle.vector_boards.specs.Lent.{nothing, read_lent, next_table, third_table, marks_read, ranks_read, changed};

use crate::{KEYS, Lent, MARKS, MEMBERS, RANKS, RECORDS, ROSTER, marks_and_ranks, tables};
use vector_cells::{byte, set_cell};
use vector_words::{ahead, word};

// Before the first board.
pub fn nothing() -> Lent
    ensures { result ≡ nothing }
{
    Lent {
        rows: 0,
        values: 0,
        edge_rule: 0,
        marks: 0,
        keys: 0,
        ranks: 0,
        records: 0,
        members: 0,
        roster: 0,
    }
}

// The shape and the lengths, one word each.
pub fn read_lent(words: &[usize], at: usize) -> Lent
    ensures { result ≡ read_lent words.now at }
{
    Lent {
        rows: word(words, at),
        values: word(words, ahead(at, 1)),
        edge_rule: byte(word(words, ahead(at, 2))),
        marks: word(words, ahead(at, 3)),
        keys: word(words, ahead(at, 4)),
        ranks: word(words, ahead(at, 5)),
        records: word(words, ahead(at, 6)),
        members: word(words, ahead(at, 7)),
        roster: word(words, ahead(at, 8)),
    }
}

// Marks, keys and ranks; answers the place behind them.
pub fn read_tables(
    words: &[usize],
    at: usize,
    room: &mut [usize; MARKS],
    marks: &mut [u8; MARKS],
    keys: &mut [usize; KEYS],
    ranks: &mut [i64; RANKS],
) -> usize
    ensures { (result ≡ next_table words.now (third_table words.now at))
        × (room.new ≡ table_in words.now (third_table words.now at) (table_in words.now at room.old))
        × (marks.new ≡ marks_read words.now at room.old marks.old)
        × (keys.new ≡ table_in words.now (next_table words.now at) keys.old)
        × (ranks.new ≡ ranks_read words.now (third_table words.now at) (table_in words.now at room.old) ranks.old) }
{
    let marked = tables::table(words, at, room);
    marks_and_ranks::to_marks(room, marked.cells, marks);
    let keyed = tables::table(words, marked.at, keys);
    let ranked = tables::table(words, keyed.at, room);
    marks_and_ranks::to_ranks(room, ranked.cells, ranks);
    ranked.at
}

// Records, members and the roster.
pub fn read_index(
    words: &[usize],
    at: usize,
    records: &mut [usize; RECORDS],
    members: &mut [usize; MEMBERS],
    roster: &mut [usize; ROSTER],
)
    ensures { (records.new ≡ table_in words.now at records.old)
        × (members.new ≡ table_in words.now (next_table words.now at) members.old)
        × (roster.new ≡ table_in words.now (third_table words.now at) roster.old) }
{
    let recorded = tables::table(words, at, records);
    let listed = tables::table(words, recorded.at, members);
    tables::table(words, listed.at, roster);
}

// One cell of the tables: 0 a mark, 1 a key, 2 a rank.
pub fn change_table(
    table: usize,
    at: usize,
    cell: usize,
    marks: &mut [u8; MARKS],
    keys: &mut [usize; KEYS],
    ranks: &mut [i64; RANKS],
)
    ensures { (marks.new ≡ changed (eqb table 0) marks.old at (cell % 256))
        × (keys.new ≡ changed (eqb table 1) keys.old at cell)
        × (ranks.new ≡ changed (eqb table 2) ranks.old at (signed cell)) }
{
    match table {
        0 => marks_and_ranks::set_mark(marks, at, cell),
        1 => set_cell(keys, at, cell),
        2 => marks_and_ranks::set_rank(ranks, at, cell),
        _ => {}
    }
}

// One cell of the index or the roster: 3 a record, 4 a member, 5 what build is handed.
pub fn change_index(
    table: usize,
    at: usize,
    cell: usize,
    records: &mut [usize; RECORDS],
    members: &mut [usize; MEMBERS],
    roster: &mut [usize; ROSTER],
)
    ensures { (records.new ≡ changed (eqb table 3) records.old at cell)
        × (members.new ≡ changed (eqb table 4) members.old at cell)
        × (roster.new ≡ changed (eqb table 5) roster.old at cell) }
{
    match table {
        3 => set_cell(records, at, cell),
        4 => set_cell(members, at, cell),
        5 => set_cell(roster, at, cell),
        _ => {}
    }
}
