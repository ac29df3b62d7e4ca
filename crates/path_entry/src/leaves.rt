// The leaves of a try: what it does before its blocker is asked to make way, and what it does once
// an alternative of the blocker was found.
ghost use Rattle.std.specs.Prelude.{◌≡◌, true, false, ◌∷◌, [], ◌++◌, ◌+◌, ◌<◌, ◌^◌, ltb};
ghost use Rattle.assignment_tables.specs.Tables.{board, legal_at, the_board, of_tables};
ghost use Rattle.assignment_index.specs.Index.{roster_in, Indexed, the_roster, IsIndexed};
ghost use Rattle.search_rules.specs.Search.{hit, edit, displaced};
ghost use Rattle.search_rules.specs.Lifted.{Lifted};
ghost use Rattle.path_steps.specs.Lists.{front, Standing};
ghost use Rattle.path_steps.specs.declared.Prospect.TheVariants as prospects;
ghost use Rattle.path_steps.specs.Prospects.{prospect_of};
ghost use Rattle.word_bits.specs.Marks.{marked};
ghost use Rattle.path_entry.specs.Trails.{the_list, Between, Roomy, Tells, Enters, Closed};

use crate::{Entered, Path, Stuck, Trail};
use assignment_index::Index;
use assignment_tables::{Shape, Tables};
use path_steps::{Prospect, displace, free};
use word_bits::{Visiting, visited};

// Empties the optional blockers, where displacement is on: the length of the list then.
fn displace_if_on(
    tables: &Tables<'_>,
    index: &Index<'_, '_>,
    displace: bool,
    list_rows: &mut [usize],
    list_values: &mut [usize],
    listed: usize,
    row: usize,
    value: usize,
) -> usize
    requires indexed { IsIndexed tables.now index.now }
    requires lifted { Lifted (of_tables board tables.now) displace (front listed list_rows.old list_values.old) }
    requires value_value { legal_at tables.now.shape tables.now.marks.now row value ≡ true }
    requires roomy { Roomy listed list_rows.old list_values.old }
    ensures { Standing listed list_rows.old list_values.old list_rows.new list_values.new result
        (displaced (the_board tables.now) displace (the_roster tables.now index.now) row value (the_list listed list_rows list_values)) }
{
    if displace {
        return displace::displace_blockers(
            tables,
            index,
            list_rows,
            list_values,
            listed,
            row,
            value,
        );
    }
    listed
}

// A row that nobody blocks takes the value.
fn take_value(
    tables: &Tables<'_>,
    index: &Index<'_, '_>,
    displace: bool,
    list_rows: &mut [usize],
    list_values: &mut [usize],
    listed: usize,
    row: usize,
    value: usize,
    asks: usize,
) -> Trail
    requires indexed { IsIndexed tables.now index.now }
    requires lifted { Lifted (of_tables board tables.now) displace (front listed list_rows.old list_values.old) }
    requires value_value { legal_at tables.now.shape tables.now.marks.now row value ≡ true }
    requires roomy { Roomy listed list_rows.old list_values.old }
    ensures { Tells
        (hit asks (displaced (the_board tables.now) displace (the_roster tables.now index.now) row value (the_list listed list_rows list_values) ++ (edit row value ∷ [])))
        listed (tables.now.shape.rows + 1) list_rows list_values result }
{
    let end = displace_if_on(
        tables,
        index,
        displace,
        list_rows,
        list_values,
        listed,
        row,
        value,
    );
    list_rows[end] = row;
    list_values[end] = value;
    Trail::Found(Path {
        asks: asks,
        length: end + 1,
    })
}

// A row that a required row blocks asks it to make way, unless it is too deep or being tried
// already.
fn stand_aside(
    tables: &Tables<'_>,
    index: &Index<'_, '_>,
    displace: bool,
    budget: usize,
    visiting: Visiting,
    depth: usize,
    list_rows: &mut [usize],
    list_values: &mut [usize],
    listed: usize,
    row: usize,
    value: usize,
    asks: usize,
    blocker: usize,
) -> Entered
    requires indexed { IsIndexed tables.now index.now }
    requires lifted { Lifted (of_tables board tables.now) displace (front listed list_rows.old list_values.old) }
    requires roomy { Roomy listed list_rows.old list_values.old }
    requires asks_value { (ltb budget (asks + 1) ≡ false) × (asks + 1 < 2 ^ 64) }
    requires blocker_value { prospects.Blocked blocker ≡ prospect_of (of_tables board tables.now) displace (roster_in tables.now.shape.rows index.now.records.now) row value }
    ensures { Enters (the_board tables.now) (the_roster tables.now index.now) displace budget depth (marked visiting)
        row value asks listed list_rows list_values result }
{
    let asked = asks + 1;
    if depth == 0 {
        return Entered::Settled(Trail::Missed(asked));
    }
    if visited::is_visiting(visiting, row) {
        return Entered::Settled(Trail::Missed(asked));
    }
    let end = displace_if_on(
        tables,
        index,
        displace,
        list_rows,
        list_values,
        listed,
        row,
        value,
    );
    Entered::Stuck(Stuck {
        blocker: blocker,
        asks: asked,
        length: end,
    })
}

// What a prospect comes to: it fails, is taken, or its blocker has to make way.
pub fn follow(
    tables: &Tables<'_>,
    index: &Index<'_, '_>,
    displace: bool,
    budget: usize,
    visiting: Visiting,
    depth: usize,
    list_rows: &mut [usize],
    list_values: &mut [usize],
    listed: usize,
    row: usize,
    value: usize,
    asks: usize,
    prospect: Prospect,
) -> Entered
    requires indexed { IsIndexed tables.now index.now }
    requires lifted { Lifted (of_tables board tables.now) displace (front listed list_rows.old list_values.old) }
    requires roomy { Roomy listed list_rows.old list_values.old }
    requires asks_value { (ltb budget (asks + 1) ≡ false) × (asks + 1 < 2 ^ 64) }
    requires prospect_value { prospect ≡ prospect_of (of_tables board tables.now) displace (roster_in tables.now.shape.rows index.now.records.now) row value }
    ensures { Enters (the_board tables.now) (the_roster tables.now index.now) displace budget depth (marked visiting)
        row value asks listed list_rows list_values result }
{
    match prospect {
        Prospect::Fails => Entered::Settled(Trail::Missed(asks + 1)),
        Prospect::Free => Entered::Settled(take_value(
            tables,
            index,
            displace,
            list_rows,
            list_values,
            listed,
            row,
            value,
            asks + 1,
        )),
        Prospect::Blocked(blocker) => stand_aside(
            tables,
            index,
            displace,
            budget,
            visiting,
            depth,
            list_rows,
            list_values,
            listed,
            row,
            value,
            asks,
            blocker,
        ),
    }
}

// Once an alternative was found, the row takes the value if it is then free. If it is not, the
// longer list is forgotten with the trail: what stands behind the length that a caller keeps counts
// for nothing.
pub fn close_path(
    tables: &Tables<'_>,
    index: &Index<'_, '_>,
    list_rows: &mut [usize],
    list_values: &mut [usize],
    tried: Trail,
    row: usize,
    value: usize,
) -> Trail
    requires indexed { IsIndexed tables.now index.now }
    requires roomy { Roomy 0 list_rows.old list_values.old }
    requires between { Between 0 136 tried }
    ensures { Closed (the_board tables.now) (the_roster tables.now index.now) row value
        list_rows.old list_values.old list_rows.new list_values.new tried result }
{
    let Trail::Found(path) = tried else {
        return tried;
    };
    let length = path.length;
    if !free::free_after(
        tables,
        index,
        &list_rows[..length],
        &list_values[..length],
        row,
        value,
    ) {
        return Trail::Missed(path.asks);
    }
    list_rows[length] = row;
    list_values[length] = value;
    Trail::Found(Path {
        asks: path.asks,
        length: length + 1,
    })
}
