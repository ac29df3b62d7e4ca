// The lent tables: where each one stands in its slice, and what each hook says of them.
// docs/RULES.md, 1.

#![tactic(auto)]

ghost use Rattle.std.specs.Prelude.{◌≡◌, ℕ, ◌<◌, ◌^◌, get_or};

pub mod candidates;
pub mod cells;
pub mod edits;
pub mod layout;
pub mod lookup;

// What the slices are read by: how many rows (duties) and values (drivers) there are, and whether
// the edge rule is in force (0 is no).
#[derive(Clone, Copy)]
pub struct Shape {
    pub rows: usize,
    pub values: usize,
    pub edge_rule: u8,
}

// The tables that a caller lends: the shape that they are read by, and the three slices that they stand in.
#[derive(Clone, Copy)]
pub struct Tables<'a> {
    pub shape: Shape,
    pub marks: &'a [u8],
    pub keys: &'a [usize],
    pub ranks: &'a [i64],
    // what a machine's number is, for proofs that have the keys from behind a reference
    ghost keys_fit: { (i : ℕ) → get_or keys.now i 0 < 2 ^ 64 },
}

impl<'a> Tables<'a> {
    // The tables in slices that stand anywhere, also behind a reference to a struct of the caller's, where nothing is known of
    // what their cells fit: nothing is asked of them.
    pub fn new(shape: Shape, marks: &'a [u8], keys: &'a [usize], ranks: &'a [i64]) -> Tables<'a>
        ensures { (result.shape ≡ shape) × ((result.marks.now ≡ marks.now) × ((result.keys.now ≡ keys.now) × (result.ranks.now ≡ ranks.now))) }
    {
        Tables {
            shape,
            marks,
            keys,
            ranks,
        }
    }
}

// "No value", in rosters and edit lists: slices hold numbers, and no enum.
pub const EMPTY: usize = 18446744073709551615;
