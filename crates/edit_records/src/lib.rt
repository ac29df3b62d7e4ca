// The final test of an edit list that is lent as records of a row and a value. The records are
// gathered into two lists, and the test over two slices answers. docs/RULES.md, 3.10.

#![tactic(auto)]

ghost use Rattle.std.specs.Prelude.{◌≡◌, ◌≤◌, take};
ghost use Rattle.assignment_overlay.specs.Verdicts.{final_verdict};
ghost use Rattle.edit_records.specs.Records.{rows_in, values_in, none_gathered, one_more, gathered};
ghost use Rattle.assignment_index.specs.Index.{of_lent};

use assignment_index::Index;
use assignment_overlay::entry;
use assignment_tables::{Shape, Tables};
use refusals::Refusal;

// A row, and the value that it gets.
#[repr(C)]
#[derive(Clone, Copy)]
pub struct Edit {
    pub row: usize,
    pub value: usize,
}

// The rows and the values of a list, the first `count` of each. No board has 129 rows, so of a list
// that is longer 129 records say what all of them do: some row comes twice or is out of range.
#[derive(Drop)]
pub struct Gathered {
    pub rows: [usize; 129],
    pub values: [usize; 129],
    pub count: usize,
}

fn none_gathered() -> Gathered
    ensures { result ≡ none_gathered }
{
    Gathered {
        rows: [0; 129],
        values: [0; 129],
        count: 0,
    }
}

// One record more, where there is room.
fn one_more(lists: Gathered, edit: Edit) -> Gathered
    ensures { result ≡ one_more lists edit }
{
    let mut more = lists;
    let count = more.count;
    let room = 129;
    if count < room {
        more.rows[count] = edit.row;
        more.values[count] = edit.value;
        more.count = count + 1;
    }
    more
}

// The two lists of the records. What comes behind the first 129 changes nothing, and is not read.
fn gather(edits: &[Edit]) -> Gathered
    ensures { result ≡ gathered edits.now }
{
    let mut lists = none_gathered();
    let mut i = 0;
    while (i < edits.len()) & (i < 129) {
        lists = one_more(lists, edits[i]);
        i = i + 1;
    }
    lists
}

// The final test of what is gathered, over two slices.
fn gathered_feasible(
    lists: Gathered,
    tables: &Tables<'_>,
    index: &Index<'_, '_>,
) -> Result<bool, Refusal>
    requires { lists.count ≤ 129 }
    ensures { result ≡ of_lent final_verdict tables.now index.now (take lists.count lists.rows) (take lists.count lists.values) }
{
    let count = lists.count;
    let rows = lists.rows;
    let values = lists.values;
    entry::assignment_feasible_after_edits(tables, index, &rows[..count], &values[..count])
}

// Whether the records pass the final test: what the entry over two slices answers to their rows and
// their values, however many there are.
pub fn assignment_feasible_after_edit_records(
    edits: &[Edit],
    tables: &Tables<'_>,
    index: &Index<'_, '_>,
) -> Result<bool, Refusal>
    ensures { result ≡ of_lent final_verdict tables.now index.now (rows_in edits.now) (values_in edits.now) }
{
    let lists = gather(edits);
    gathered_feasible(lists, tables, index)
}
