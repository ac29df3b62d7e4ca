// A memory of which ordered pairs of rows were judged already: one bit for each pair of row numbers below 128.

#![tactic(auto)]

ghost use Rattle.std.specs.Prelude.{◌≡◌, false, ◌<◌, length};
ghost use Rattle.judged_pairs.specs.Judged.{word_of, is_judged, none_judged, judged_with};

use word_bits::power;

// No pair is remembered.
pub fn nothing_judged() -> [u64; 256]
    ensures { result ≡ none_judged }
{
    [0u64; 256]
}

// Whether the pair is remembered.
pub fn is_judged(judged: &[u64], left: usize, right: usize) -> bool
    requires { (length judged.now ≡ 256) × (left < 128) × (right < 128) }
    ensures { result ≡ is_judged judged.now left right }
{
    judged[word_of(left, right)] / power(right % 64) % 2 == 1
}

// Remembers a pair that is not remembered yet.
pub fn remember(judged: &mut [u64], left: usize, right: usize)
    requires { (length judged.old ≡ 256) × (left < 128) × (right < 128) × (is_judged judged.old left right ≡ false) }
    ensures { judged.new ≡ judged_with judged.old left right }
{
    let word = word_of(left, right);
    judged[word] = judged[word] + power(right % 64);
}

// The place of a pair's word: two words for each left row.
fn word_of(left: usize, right: usize) -> usize
    requires { (left < 128) × (right < 128) }
    ensures { result ≡ word_of left right }
{
    left * 2 + right / 64
}
