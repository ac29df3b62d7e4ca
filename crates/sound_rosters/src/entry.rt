// The question as an entry: any input, refused or answered.
ghost use Rattle.std.specs.Prelude.{◌≡◌};
ghost use Rattle.sound_rosters.specs.SoundVerdict.{sound_verdict};
ghost use Rattle.assignment_index.specs.Index.{of_lent};

use crate::sound;
use assignment_index::Index;
use assignment_state::admit;
use assignment_tables::{Shape, Tables};
use refusals::Refusal;

// Whether the roster is sound.
pub fn roster_sound(tables: &Tables<'_>, index: &Index<'_, '_>) -> Result<bool, Refusal>
    ensures { result ≡ of_lent sound_verdict tables.now index.now }
{
    admit::admit(tables, index, true)?;
    Ok(sound::sound_test(tables, index))
}
