// The index built, refreshed, and changed by a list that passes: every cell of it.
use engine::{apply, index};
use replay_progress::index::{Change, Index, same_change};
use show::Page;
use vector_answers::Question;
use vector_boards::{Lent, MEMBERS, RECORDS, ROSTER};
use vector_differences::FLAG_BEFORE;
use vector_words::{front, part_of};

fn build(
    page: &mut Page,
    line: &[usize],
    asked: Question,
    lent: Lent,
    marks: &[u8],
    keys: &[usize],
    ranks: &[i64],
    roster: &[usize],
    records: &mut [usize],
    members: &mut [usize],
) -> bool {
    let recorded = lent.records.min(records.len());
    let listed = lent.members.min(members.len());
    let code = index::turepawon_build_index(
        lent.rows,
        lent.values,
        lent.edge_rule,
        marks,
        keys,
        ranks,
        roster,
        &mut records[0..recorded],
        &mut members[0..listed],
    );
    same_change(page, line, asked, lent, code, FLAG_BEFORE, records, members)
}

fn refresh(
    page: &mut Page,
    line: &[usize],
    asked: Question,
    lent: Lent,
    marks: &[u8],
    keys: &[usize],
    ranks: &[i64],
    records: &mut [usize],
    members: &mut [usize],
) -> bool {
    let recorded = lent.records.min(records.len());
    let listed = lent.members.min(members.len());
    let code = index::turepawon_refresh_rows(
        lent.rows,
        lent.values,
        lent.edge_rule,
        marks,
        keys,
        ranks,
        &mut records[0..recorded],
        &mut members[0..listed],
        part_of(line, asked.first_list),
        part_of(line, asked.second_list),
    );
    same_change(page, line, asked, lent, code, FLAG_BEFORE, records, members)
}

fn apply(
    page: &mut Page,
    line: &[usize],
    asked: Question,
    lent: Lent,
    marks: &[u8],
    keys: &[usize],
    ranks: &[i64],
    records: &mut [usize],
    members: &mut [usize],
) -> bool {
    let recorded = lent.records.min(records.len());
    let listed = lent.members.min(members.len());
    let mut flag = FLAG_BEFORE;
    let code = apply::turepawon_assignment_apply_edits(
        lent.rows,
        lent.values,
        lent.edge_rule,
        marks,
        keys,
        ranks,
        &mut records[0..recorded],
        &mut members[0..listed],
        part_of(line, asked.first_list),
        part_of(line, asked.second_list),
        &mut flag,
    );
    same_change(page, line, asked, lent, code, flag, records, members)
}

// The question put to the entry whose number it has: 12 builds, 13 refreshes, 26 applies.
fn put(
    page: &mut Page,
    line: &[usize],
    asked: Question,
    lent: Lent,
    marks: &[u8],
    keys: &[usize],
    ranks: &[i64],
    roster: &[usize],
    records: &mut [usize; RECORDS],
    members: &mut [usize; MEMBERS],
) -> bool {
    let entry = asked.entry;
    match entry {
        12 => build(
            page, line, asked, lent, marks, keys, ranks, roster, records, members,
        ),
        13 => refresh(
            page, line, asked, lent, marks, keys, ranks, records, members,
        ),
        _ => apply(
            page, line, asked, lent, marks, keys, ranks, records, members,
        ),
    }
}

// A question that changes an index.
pub fn change(
    page: &mut Page,
    begun: Index,
    line: &[usize],
    asked: Question,
    lent: Lent,
    marks: &[u8],
    keys: &[usize],
    ranks: &[i64],
    roster: &[usize; ROSTER],
) -> Change {
    let mut records = begun.records;
    let mut members = begun.members;
    let same = put(
        page,
        line,
        asked,
        lent,
        marks,
        keys,
        ranks,
        front(roster, lent.roster),
        &mut records,
        &mut members,
    );
    let left = Index {
        records: records,
        members: members,
    };
    Change {
        index: left,
        same: same,
    }
}
