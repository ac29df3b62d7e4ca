// Lines of bare decimals with a comma between two and CR LF at the end. docs/RULES.md, 12.1.
ghost use Rattle.std.specs.Prelude.{◌≡◌, get_or};
ghost use Rattle.basics.specs.Promises.{◌&◌};
ghost use Rattle.vector_words.specs.Lines.{field_at, read_line};

use crate::{WORDS, ahead};
use decimals::reading::{field_end, read_decimal};

// How many words a line has, none where it is no line; where the next one begins.
#[derive(Clone, Copy)]
pub struct Line {
    pub words: Option<usize>,
    pub next: usize,
}

// What is read of a decimal, and the place behind it.
#[derive(Clone, Copy)]
struct Field {
    pub number: Option<usize>,
    pub end: usize,
}

fn read_field(text: &[u8], from: usize) -> Field
    ensures { result ≡ field_at text.now from }
{
    if text.len() < from {
        return Field {
            number: None,
            end: from,
        };
    }
    let end = field_end(text, from);
    Field {
        number: read_decimal(&text[from..end]),
        end,
    }
}

fn byte(text: &[u8], at: usize) -> u8
    ensures { result ≡ get_or text.now at 0 }
{
    text.get(at).copied().unwrap_or(0)
}

// The line that begins at a place, its words put in front of `words`.
pub fn read_line(text: &[u8], from: usize, words: &mut [usize; WORDS]) -> Line
    ensures { (result & words.new) ≡ read_line text.now from words.old }
{
    let mut at = from;
    for n in 0..WORDS {
        let field = read_field(text, at);
        let end = field.end;
        let Some(word) = field.number else {
            return Line {
                words: None,
                next: end,
            };
        };
        words[n] = word;
        if byte(text, end) == b'\r' {
            return Line {
                words: Some(n + 1),
                next: ahead(end, 2),
            };
        }
        at = ahead(end, 1);
    }
    Line {
        words: None,
        next: at,
    }
}
