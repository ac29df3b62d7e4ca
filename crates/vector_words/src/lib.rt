// Lines of the list of the original's answers become words, and words are read at any place: what is not there is 0,
// and a part that is not there is empty. Every function takes any input: a list that does not hold together shows as a
// difference, and never as a trap. oracle/README.md has the format.

#![tactic(auto)]

pub mod lines;

ghost use Rattle.std.specs.Prelude.{◌≤◌, ◌≡◌, get_or, take};
ghost use Rattle.vector_words.specs.Words.{ahead, part_of};

// The most words that a line has.
pub const WORDS: usize = 32768;

// Words from one place to before another.
#[derive(Clone, Copy)]
pub struct Part {
    pub from: usize,
    pub to: usize,
}

// A place so many words on; the last number where there is none.
pub fn ahead(at: usize, more: usize) -> usize
    ensures { result ≡ ahead at more }
{
    if usize::MAX - at < more {
        return usize::MAX;
    }
    at + more
}

pub fn word(words: &[usize], at: usize) -> usize
    ensures { result ≡ get_or words.now at 0 }
{
    words.get(at).copied().unwrap_or(0)
}

pub fn part_of(words: &[usize], part: Part) -> &[usize]
    ensures { result.now ≡ part_of words.now part }
{
    let from = part.from;
    let to = part.to;
    if to < from {
        return &words[0..0];
    }
    if words.len() < to {
        return &words[0..0];
    }
    &words[from..to]
}

// The first so many cells, or all where there are fewer.
pub fn front<T>(cells: &[T], count: usize) -> &[T]
    ensures { result.now ≡ take count cells.now }
{
    &cells[..count.min(cells.len())]
}
