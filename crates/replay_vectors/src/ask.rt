// A question put to its entry, unless the list has stopped.
use replay_calendars::calendar;
use replay_entries::index;
use replay_entries::questions::verdict;
use replay_lists::list;
use replay_progress::index::before_change;
use replay_progress::{Progress, answered, changed};
use show::Page;
use vector_answers::Question;
use vector_answers::asked::read_question;
use vector_boards::{KEYS, Lent, MARKS, MEMBERS, RANKS, RECORDS};
use vector_words::front;

// An index built, refreshed or applied to: in cells that are kept from call to call.
fn change(
    page: &mut Page,
    line: &[usize],
    asked: Question,
    progress: Progress,
    marks: &[u8],
    keys: &[usize],
    ranks: &[i64],
) -> Progress {
    let lent = progress.lent;
    let roster = progress.roster;
    let begun = before_change(line, asked, progress.index, progress.kept);
    let left = index::change(page, begun, line, asked, lent, marks, keys, ranks, &roster);
    changed(page, progress, asked.entry, left)
}

// Any other question; its entry is lent the front of the index.
fn same_answer(
    page: &mut Page,
    line: &[usize],
    asked: Question,
    lent: Lent,
    marks: &[u8],
    keys: &[usize],
    ranks: &[i64],
    records: &[usize; RECORDS],
    members: &[usize; MEMBERS],
) -> bool {
    let recorded = front(records, lent.records);
    let listed = front(members, lent.members);
    let entry = asked.entry;
    if (entry < 17) | (entry == 19) {
        return verdict(
            page, line, asked, lent, marks, keys, ranks, recorded, listed,
        );
    }
    if 26 < entry {
        return calendar(
            page, line, asked, lent, marks, keys, ranks, recorded, listed,
        );
    }
    list(
        page, line, asked, lent, marks, keys, ranks, recorded, listed,
    )
}

fn question(
    page: &mut Page,
    line: &[usize],
    asked: Question,
    progress: Progress,
    marks: &[u8],
    keys: &[usize],
    ranks: &[i64],
) -> Progress {
    let index = progress.index;
    let records = index.records;
    let members = index.members;
    let same = same_answer(
        page,
        line,
        asked,
        progress.lent,
        marks,
        keys,
        ranks,
        &records,
        &members,
    );
    answered(page, progress, asked.entry, same)
}

// Cuts every table to its length.
pub fn ask(
    page: &mut Page,
    line: &[usize],
    progress: Progress,
    marks: &[u8; MARKS],
    keys: &[usize; KEYS],
    ranks: &[i64; RANKS],
) -> Progress {
    if progress.stopped {
        return progress;
    }
    let lent = progress.lent;
    let asked = read_question(line);
    let marked = front(marks, lent.marks);
    let keyed = front(keys, lent.keys);
    let ranked = front(ranks, lent.ranks);
    let entry = asked.entry;
    if (entry == 12) | (entry == 13) | (entry == 26) {
        return change(page, line, asked, progress, marked, keyed, ranked);
    }
    question(page, line, asked, progress, marked, keyed, ranked)
}
