// The sequences beside a sequence. docs/RULES.md, 3.5.

#![tactic(auto)]

ghost use Rattle.std.specs.Prelude.{◌≡◌};
ghost use Rattle.rules.specs.Board.{Board};
ghost use Rattle.rules.specs.Neighbours.{below, above};

// The largest sequence. `sequence_above` says it, and is no `checked_add`: an edit of the number alone is refused for what it
// means, and one of a call for its form.
const LAST: usize = 18446744073709551615;

// The sequence right below, and the one right above.
pub fn sequence_below(sequence: usize) -> Option<usize>
    ensures { (B : Board) → result ≡ below B sequence }
{
    sequence.checked_sub(1)
}

pub fn sequence_above(sequence: usize) -> Option<usize>
    ensures { (B : Board) → result ≡ above B sequence }
{
    if sequence == LAST {
        return None;
    }
    Some(sequence + 1)
}
