// The tables and the index: checked, built, refreshed.
ghost use Rattle.std.specs.Prelude.{◌≡◌, true};
ghost use Rattle.refusals.specs.Codes.{code};
ghost use Rattle.assignment_tables.specs.Refusal.{tables_refusal};
ghost use Rattle.assignment_state.specs.Admission.{admission};
ghost use Rattle.assignment_updates.specs.Refresh.{refreshed, built};
ghost use Rattle.engine.specs.Asked.{shaped};

use assignment_index::Index;
use assignment_state::admit;
use assignment_tables::{Shape, Tables};
use assignment_updates::refresh;
use refusals::codes::code;
use table_refusals::tables_refusal;

// 0, or the refusal of the tables by themselves: 1 or 2.
pub fn turepawon_tables_refusal(
    rows: usize,
    values: usize,
    edge_rule: u8,
    marks: &[u8],
    keys: &[usize],
    ranks: &[i64],
) -> u8
    ensures { result ≡ code (tables_refusal (shaped rows values edge_rule) marks.now keys.now ranks.now true) }
{
    let tables = Tables {
        shape: Shape {
            rows,
            values,
            edge_rule,
        },
        marks,
        keys,
        ranks,
    };
    code(tables_refusal(&tables, true))
}

// 0, or the refusal of tables and index: 1, 2, 3 or 6.
pub fn turepawon_admit(
    rows: usize,
    values: usize,
    edge_rule: u8,
    marks: &[u8],
    keys: &[usize],
    ranks: &[i64],
    records: &[usize],
    members: &[usize],
) -> u8
    ensures { result ≡ code (admission (shaped rows values edge_rule) marks.now keys.now ranks.now records.now members.now true) }
{
    let tables = Tables {
        shape: Shape {
            rows,
            values,
            edge_rule,
        },
        marks,
        keys,
        ranks,
    };
    let index = Index { records, members };
    code(admit::admit(&tables, &index, true))
}

// Writes the index of a roster, whatever the slices held. A refusal leaves them as they were.
pub fn turepawon_build_index(
    rows: usize,
    values: usize,
    edge_rule: u8,
    marks: &[u8],
    keys: &[usize],
    ranks: &[i64],
    roster: &[usize],
    records: &mut [usize],
    members: &mut [usize],
) -> u8
    ensures value { result ≡ code (built (shaped rows values edge_rule) marks.now keys.now ranks.now roster.now records.old members.old).answer }
    ensures records_value { records.new ≡ (built (shaped rows values edge_rule) marks.now keys.now ranks.now roster.now records.old members.old).records }
    ensures members_value { members.new ≡ (built (shaped rows values edge_rule) marks.now keys.now ranks.now roster.now records.old members.old).members }
{
    let tables = Tables {
        shape: Shape {
            rows,
            values,
            edge_rule,
        },
        marks,
        keys,
        ranks,
    };
    code(refresh::build_index(&tables, roster, records, members))
}

// For loading a roster: gives every listed row the value beside it. A refusal leaves both slices as they
// were.
pub fn turepawon_refresh_rows(
    rows: usize,
    values: usize,
    edge_rule: u8,
    marks: &[u8],
    keys: &[usize],
    ranks: &[i64],
    records: &mut [usize],
    members: &mut [usize],
    list_rows: &[usize],
    list_values: &[usize],
) -> u8
    ensures value { result ≡ code (refreshed (shaped rows values edge_rule) marks.now keys.now ranks.now records.old members.old list_rows.now list_values.now).answer }
    ensures records_value { records.new ≡ (refreshed (shaped rows values edge_rule) marks.now keys.now ranks.now records.old members.old list_rows.now list_values.now).records }
    ensures members_value { members.new ≡ (refreshed (shaped rows values edge_rule) marks.now keys.now ranks.now records.old members.old list_rows.now list_values.now).members }
{
    let tables = Tables {
        shape: Shape {
            rows,
            values,
            edge_rule,
        },
        marks,
        keys,
        ranks,
    };
    code(refresh::refresh_rows(&tables, records, members, list_rows, list_values))
}
