// The ceiling as numbers, for a boundary that carries nothing else.
ghost use Rattle.std.specs.Prelude.{◌≡◌};
ghost use Rattle.search_ceiling.specs.Answer.{ceiling_answer};
ghost use Rattle.search_ceiling.specs.Codes.{bounded, ceiling_told};

use crate::ask_ceiling;
use refusals::codes::code;

// The ceiling as a code; `most` becomes the most asks, and a refusal leaves it as it was.
pub fn ceiling_told(candidates: usize, depth: usize, most: &mut usize) -> u8
    ensures { bounded result most.new ≡ ceiling_told (ceiling_answer candidates depth) most.old }
{
    let asks = ask_ceiling(candidates, depth);
    *most = asks.unwrap_or(*most);
    code(asks)
}
