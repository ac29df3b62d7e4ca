// The conflicts of a roster.
ghost use Rattle.std.specs.Prelude.{◌≡◌};
ghost use Rattle.std.specs.Result.{result_unwrap_or};
ghost use Rattle.refusals.specs.Codes.{code};
ghost use Rattle.assignment_conflicts.specs.Listing.{listing};
ghost use Rattle.engine.specs.Asked.{shaped};

use assignment_conflicts::listing;
use assignment_index::Index;
use assignment_tables::{Shape, Tables};
use refusals::codes::code;

// Lists the holders of every conflict and their keys. `count` becomes their number; a refusal leaves
// it and both outputs as they were.
pub fn turepawon_capacity_conflicts(
    rows: usize,
    values: usize,
    edge_rule: u8,
    marks: &[u8],
    keys: &[usize],
    ranks: &[i64],
    records: &[usize],
    members: &[usize],
    out_keys: &mut [usize],
    out_rows: &mut [usize],
    count: &mut usize,
) -> u8
    ensures value { result ≡ code (listing (shaped rows values edge_rule) marks.now keys.now ranks.now records.now members.now out_keys.old out_rows.old).answer }
    ensures count_value { count.new
        ≡ result_unwrap_or (listing (shaped rows values edge_rule) marks.now keys.now ranks.now
        records.now members.now out_keys.old out_rows.old).answer count.old }
    ensures out_keys_value { out_keys.new ≡ (listing (shaped rows values edge_rule) marks.now keys.now ranks.now records.now members.now out_keys.old out_rows.old).keys }
    ensures out_rows_value { out_rows.new ≡ (listing (shaped rows values edge_rule) marks.now keys.now ranks.now records.now members.now out_keys.old out_rows.old).rows }
{
    let tables = Tables {
        shape: Shape {
            rows,
            values,
            edge_rule,
        },
        marks,
        keys,
        ranks,
    };
    let index = Index { records, members };
    let conflicts = listing::capacity_conflicts(&tables, &index, out_keys, out_rows);
    *count = conflicts.unwrap_or(*count);
    code(conflicts)
}
