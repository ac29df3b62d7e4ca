// The index of a roster, in two slices that the caller lends: which rows
// stand under a key, and what a row holds. docs/RULES.md, 2.

#![tactic(auto)]

ghost use Rattle.std.specs.Prelude.{◌≡◌, ℕ, ◌<◌, ◌^◌, get_or};

pub mod columns;
pub mod rows;

// The index of a roster as a caller lends it: what each row holds, with its keys, and which rows stand under a key.
// Each slice is lent for a time of its own: rows under a key are a part of the members, and do not hold the records.
#[derive(Clone, Copy)]
pub struct Index<'records, 'members> {
    pub records: &'records [usize],
    pub members: &'members [usize],
    // what a machine's number is, for proofs that have the records from behind a reference
    ghost records_fit: { (i : ℕ) → get_or records.now i 0 < 2 ^ 64 },
}

impl<'records, 'members> Index<'records, 'members> {
    // The index in slices that stand anywhere, as `Tables::new` makes the tables.
    pub fn new(records: &'records [usize], members: &'members [usize]) -> Index<'records, 'members>
        ensures { (result.records.now ≡ records.now) × (result.members.now ≡ members.now) }
    {
        Index { records, members }
    }
}
