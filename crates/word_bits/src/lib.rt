// Bits of a word, and the rows below 128 as marks, a bit a row.

#![tactic(auto)]

pub mod visited;

ghost use Rattle.std.specs.Prelude.{◌≡◌, ◌<◌, ◌^◌};

// The rows being tried further up in a search: a bit a row, the rows from 64 on in the second word. Each level
// of a search has its own, so it has to be small.
#[derive(Clone, Copy)]
pub struct Visiting {
    pub low: u64,
    pub high: u64,
}

// The word whose only bit that is set is the b-th.
pub fn power(b: usize) -> u64
    requires { b < 64 }
    ensures { result ≡ 2 ^ b }
{
    1u64 << b
}
