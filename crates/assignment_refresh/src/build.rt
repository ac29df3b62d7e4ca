// The whole index of a roster, written into the lent slices.
ghost use Rattle.std.specs.Prelude.{◌≡◌, ◌+◌, ◌≤◌, length, replicate};
ghost use Rattle.rules.specs.Roster.{roster_of};
ghost use Rattle.assignment_tables.specs.Layout.{Marked, keys_length};
ghost use Rattle.assignment_tables.specs.Tables.{capacity_at, sequence_at, of_tables};
ghost use Rattle.assignment_index.specs.Columns.{records_length, members_length};
ghost use Rattle.assignment_index.specs.Index.{records_of, members_of, roster_in, Indexed};
ghost use Rattle.assignment_refresh.specs.Refresh.{nobody, keyless};

use assignment_tables::{EMPTY, Shape, Tables};

// Writes the index of a roster where nobody holds anything, whatever the slices held.
fn clear(rows: usize, records: &mut [usize], members: &mut [usize])
    requires rows_bound { rows ≤ 128 }
    requires records_len { (length records.old ≡ records_length rows) × (length members.old ≡ members_length rows) }
    ensures records_value { records.new ≡ records_of rows keyless keyless nobody }
    ensures members_value { members.new ≡ members_of rows records.new }
{
    records.fill(0);
    records[..rows].fill(EMPTY);
    members.fill(0);
}

// Gives each row of an index in which nobody holds anything its value in the roster.
fn put_each(tables: &Tables<'_>, roster: &[usize], records: &mut [usize], members: &mut [usize])
    requires indexed { of_tables Indexed tables.now records.old members.old }
    requires roster_len { (length roster.now ≡ tables.now.shape.rows) × (roster_in tables.now.shape.rows records.old ≡ nobody) }
    ensures records_value { records.new ≡ records_of tables.now.shape.rows (of_tables capacity_at tables.now) (of_tables sequence_at tables.now) (roster_of roster.now) }
    ensures members_value { members.new ≡ members_of tables.now.shape.rows records.new }
{
    for row in 0..roster.len() {
        index_rows::put_in(tables, records, members, row, roster[row]);
    }
}

// Writes the index of the roster, whatever the slices held.
pub fn build(tables: &Tables<'_>, roster: &[usize], records: &mut [usize], members: &mut [usize])
    requires marked { Marked tables.now.shape tables.now.marks.now }
    requires keys_len { (length tables.now.keys.now ≡ keys_length tables.now.shape)
        × (length records.old ≡ records_length tables.now.shape.rows)
        × (length members.old ≡ members_length tables.now.shape.rows)
        × (length roster.now ≡ tables.now.shape.rows) }
    ensures records_value { records.new ≡ records_of tables.now.shape.rows (of_tables capacity_at tables.now) (of_tables sequence_at tables.now) (roster_of roster.now) }
    ensures members_value { members.new ≡ members_of tables.now.shape.rows records.new }
{
    clear(tables.shape.rows, records, members);
    put_each(tables, roster, records, members);
}
