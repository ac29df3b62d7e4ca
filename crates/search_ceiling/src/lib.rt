// The most asks that a search can make, worked out depth by depth. docs/RULES.md, 7.3.

#![tactic(auto)]

pub mod codes;

ghost use Rattle.std.specs.Prelude.{◌≡◌, ◌≤◌, ◌<◌, ◌^◌};
ghost use Rattle.search_rules.specs.Ceiling.{try_ceiling};
ghost use Rattle.search_ceiling.specs.Answer.{ceiling_answer};

use refusals::Refusal;

// Of a try at a depth, where no row offers more than so many candidates.
fn level_ceiling(candidates: usize, depth: usize) -> usize
    requires { (candidates ≤ 64) × (depth ≤ 8) }
    ensures { result ≡ try_ceiling candidates depth }
{
    if depth == 0 {
        return 1;
    }
    let lower = level_ceiling(candidates, depth - 1);
    1 + candidates + candidates * lower
}

// Of a search: the most asks that it can make.
pub fn ask_ceiling(candidates: usize, depth: usize) -> Result<usize, Refusal>
    ensures { result ≡ ceiling_answer candidates depth }
{
    let most = 64;
    if most < candidates {
        return Err(Refusal::Candidates);
    }
    if 8 < depth {
        return Err(Refusal::Depth);
    }
    Ok(2 + level_ceiling(candidates, depth))
}
