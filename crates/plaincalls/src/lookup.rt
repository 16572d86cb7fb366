// Lookup: the logical page's entry, read once.
ghost use Rattle.plain.specs.Calls.{lookup};
ghost use Rattle.answers.specs.Answers.{plain_lookup_answer};
ghost use Rattle.plainstate.specs.Ran.{state_slices, Ran};

use answers::Refusal;
use plainstate::entries::{NO_PAGE, entry};
use plainstate::opening::open_table;
use plainstate::sound::entry_sound;

// Document 02's lookup of the plain engine.
pub fn lookup(state: &[u8], page: u32) -> Result<Option<u32>, Refusal>
    ensures { Ran (lookup page) state.now (plain_lookup_answer result) (state_slices state.now) }
{
    let d = open_table(state)?;
    if d.n <= page {
        return Err(Refusal::OutOfRange);
    }
    let e = entry(state, d, page);
    if !entry_sound(state, d, e) {
        return Err(Refusal::NotSound);
    }
    if e == NO_PAGE {
        return Ok(None);
    }
    Ok(Some(e))
}
