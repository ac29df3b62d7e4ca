// A file of lists, line by line: boards, changes of a few cells, questions. A list ends with a line that is
// 0 alone; its first difference is printed, and the rest of its questions is passed over.
use crate::ask::ask;
use listing_input::read_input;
use replay_progress::lines::take;
use replay_progress::{Progress, begin};
use replay_report::show_malformed;
use show::Page;
use std::io;
use std::io::Read;
use vector_boards::{KEYS, MARKS, RANKS};
use vector_words::lines::read_line;
use vector_words::{WORDS, front, word};

// The most bytes that are read.
pub const TEXT: usize = 2000000;

// One line of a list: from 4 on its first word is the number of an entry.
fn take_line(
    page: &mut Page,
    line: &[usize],
    progress: Progress,
    marks: &mut [u8; MARKS],
    keys: &mut [usize; KEYS],
    ranks: &mut [i64; RANKS],
) -> Progress {
    if word(line, 0) < 4 {
        return take(page, line, progress, marks, keys, ranks);
    }
    ask(page, line, progress, marks, keys, ranks)
}

// All lines of a text, of which there are fewer than bytes.
fn take_lines(
    page: &mut Page,
    text: &[u8],
    words: &mut [usize; WORDS],
    marks: &mut [u8; MARKS],
    keys: &mut [usize; KEYS],
    ranks: &mut [i64; RANKS],
) {
    let mut progress = begin();
    let mut at = 0;
    for number in 1..=text.len() {
        if text.len() <= at {
            return;
        }
        let line = read_line(text, at, words);
        at = line.next;
        let Some(count) = line.words else {
            return show_malformed(page, number);
        };
        progress = take_line(page, front(words, count), progress, marks, keys, ranks);
    }
}

fn replay(page: &mut Page, text: &[u8; TEXT], size: usize) {
    let mut words = [0usize; WORDS];
    let mut marks = [0u8; MARKS];
    let mut keys = [0usize; KEYS];
    let mut ranks = [0i64; RANKS];
    take_lines(
        page,
        front(text, size),
        &mut words,
        &mut marks,
        &mut keys,
        &mut ranks,
    );
}

// A function of its own: where the text is made, its length is a number that the check would count out.
fn read(input: &mut impl Read, text: &mut [u8; TEXT]) -> io::Result<usize> {
    read_input(input, text)
}

// Replays what standard input has.
pub fn run(rt: &HostRuntime) -> io::Result<()> {
    let mut text = [0u8; TEXT];
    let size = read(&mut rt.stdin(), &mut text)?;
    let mut page = Page::new(rt.stdout());
    replay(&mut page, &text, size);
    page.end()
}
