// A question of a list of the original's answers, as its line has it, and the parts of an answer held to the list's.

#![tactic(auto)]

pub mod answers;
pub mod asked;
mod left;

use vector_words::Part;

// A call and what is expected of it, as places in a line's words: the entry, its numbers, two lists and the
// rooms of two outputs; the code, the flag, the numbers told, the fronts of the outputs, the index.
#[derive(Clone, Copy)]
pub struct Question {
    pub entry: usize,
    pub numbers: Part,
    pub first_list: Part,
    pub second_list: Part,
    pub rooms: usize,
    pub told: Part,
    pub first_front: Part,
    pub second_front: Part,
    pub index: usize,
}
