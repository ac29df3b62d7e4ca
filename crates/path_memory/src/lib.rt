// The memory of prospects: a search asks about the same row and value again and again.

#![tactic(auto)]

ghost use Rattle.std.specs.Prelude.{◌≡◌, ◌≤◌, ◌<◌, ◌+◌};
ghost use Rattle.assignment_tables.specs.Layout.{Small};
ghost use Rattle.assignment_tables.specs.Tables.{the_board, of_tables};
ghost use Rattle.assignment_index.specs.Index.{Indexed, the_roster, IsIndexed};
ghost use Rattle.path_steps.specs.Prospects.{prospect_of};
ghost use Rattle.path_memory.specs.Memory.{prospect_number, Recalls, remembered_at, noted_in, hopeless_at, nothing_yet};

use assignment_index::Index;
use assignment_tables::{Shape, Tables};
use path_steps::{Prospect, judge};

// The prospect as a number of the memory.
fn number_of(prospect: Prospect) -> u8
    requires { prospect_number prospect < 256 }
    ensures { result ≡ prospect_number prospect }
{
    match prospect {
        Prospect::Fails => 1,
        Prospect::Free => 2,
        Prospect::Blocked(blocker) => (blocker + 3) as u8,
    }
}

// The prospect that a number of the memory stands for.
fn prospect_of(number: u8) -> Prospect
    requires { 1 ≤ number }
    ensures { prospect_number result ≡ number }
{
    if number == 1 {
        return Prospect::Fails;
    }
    if number == 2 {
        return Prospect::Free;
    }
    Prospect::Blocked((number - 3) as usize)
}

// What the memory has for the row and the value. It may be shorter than the board, even empty: what
// has no cell in it is as good as not judged yet.
fn number_at(shape: Shape, memo: &[u8], row: usize, value: usize) -> u8
    requires { Small shape }
    ensures { result ≡ remembered_at shape memo.now row value }
{
    if shape.rows <= row {
        return 0;
    }
    if shape.values <= value {
        return 0;
    }
    let cell = row * shape.values + value;
    if memo.len() <= cell {
        return 0;
    }
    memo[cell]
}

// Writes the prospect of the row and the value into their cell, where there is one.
fn remember(shape: Shape, memo: &mut [u8], row: usize, value: usize, prospect: Prospect)
    requires small { Small shape }
    requires prospect_bound { prospect_number prospect < 256 }
    ensures { memo.new ≡ noted_in shape memo.old row value prospect }
{
    if shape.rows <= row {
        return;
    }
    if shape.values <= value {
        return;
    }
    let place = row * shape.values + value;
    if memo.len() <= place {
        return;
    }
    memo[place] = number_of(prospect);
}

// What a row and a value come to, remembered, or judged and then remembered.
pub fn recall(
    tables: &Tables<'_>,
    index: &Index<'_, '_>,
    displace: bool,
    memo: &mut [u8],
    row: usize,
    value: usize,
) -> Prospect
    requires indexed { IsIndexed tables.now index.now }
    requires recalls { of_tables Recalls tables.now index.now.records.now displace memo.old }
    ensures value { result ≡ prospect_of (the_board tables.now) displace (the_roster tables.now index.now) row value }
    ensures recalls_2 { of_tables Recalls tables.now index.now.records.now displace memo.new }
{
    let number = number_at(tables.shape, &memo[..], row, value);
    if number != 0 {
        return prospect_of(number);
    }
    let prospect = judge::prospect(tables, index, displace, row, value);
    remember(tables.shape, memo, row, value, prospect);
    prospect
}

// Whether a try at the depth fails for sure, whatever was displaced before. A search asks this of
// most of its alternatives, so the memory is looked at first; where nothing deeper may be tried the
// prospect is judged here, and most tries end without being begun.
pub fn hopeless(
    tables: &Tables<'_>,
    index: &Index<'_, '_>,
    displace: bool,
    memo: &mut [u8],
    depth: usize,
    row: usize,
    value: usize,
) -> bool
    requires indexed { IsIndexed tables.now index.now }
    requires recalls { of_tables Recalls tables.now index.now.records.now displace memo.old }
    ensures value { result ≡ hopeless_at (the_board tables.now) displace (the_roster tables.now index.now) tables.now.shape memo.old depth row value }
    ensures recalls_2 { of_tables Recalls tables.now index.now.records.now displace memo.new }
{
    let number = number_at(tables.shape, &memo[..], row, value);
    if number == 1 {
        return true;
    }
    if depth != 0 {
        return false;
    }
    if number != 0 {
        return 2 < number;
    }
    let prospect = judge::prospect(tables, index, displace, row, value);
    remember(tables.shape, memo, row, value, prospect);
    match prospect {
        Prospect::Fails => true,
        Prospect::Free => false,
        Prospect::Blocked(_) => true,
    }
}

// A memory of nothing, with a cell for every row and value.
pub fn fresh_memory() -> [u8; 8192]
    ensures { result ≡ nothing_yet }
{
    [0; 8192]
}
