// A question's line.
ghost use Rattle.std.specs.Prelude.{◌≤◌, ◌≡◌};
ghost use Rattle.vector_words.specs.Words.{counted};
ghost use Rattle.vector_answers.specs.Questions.{read_question, number_of, first_room, second_room};

use crate::Question;
use vector_cells::OUTPUT;
use vector_words::{Part, ahead, part_of, word};

// The words behind their number.
fn counted(words: &[usize], at: usize) -> Part
    ensures { result ≡ counted words.now at }
{
    let from = ahead(at, 1);
    Part {
        from: from,
        to: ahead(from, word(words, at)),
    }
}

// The parts one behind the other: the entry; numbers, two lists; two rooms, code and flag; the numbers
// told, the two fronts; the index.
pub fn read_question(line: &[usize]) -> Question
    ensures { result ≡ read_question line.now }
{
    let numbers = counted(line, 1);
    let first_list = counted(line, numbers.to);
    let second_list = counted(line, first_list.to);
    let told = counted(line, ahead(second_list.to, 4));
    let first_front = counted(line, told.to);
    let second_front = counted(line, first_front.to);
    Question {
        entry: word(line, 0),
        numbers: numbers,
        first_list: first_list,
        second_list: second_list,
        rooms: second_list.to,
        told: told,
        first_front: first_front,
        second_front: second_front,
        index: second_front.to,
    }
}

// A number that the entry is handed.
pub fn number(line: &[usize], question: Question, at: usize) -> usize
    ensures { result ≡ number_of line.now question at }
{
    word(part_of(line, question.numbers), at)
}

// How many cells of an output are lent.
pub fn first_room(line: &[usize], question: Question) -> usize
    ensures { (result ≡ first_room line.now question) × (result ≤ 140) }
{
    word(line, question.rooms).min(OUTPUT)
}

pub fn second_room(line: &[usize], question: Question) -> usize
    ensures { (result ≡ second_room line.now question) × (result ≤ 140) }
{
    word(line, ahead(question.rooms, 1)).min(OUTPUT)
}
