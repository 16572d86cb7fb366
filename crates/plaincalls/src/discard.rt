// Discard: the logical page's entry names no page any more.
ghost use Rattle.plain.specs.Calls.{discard};
ghost use Rattle.answers.specs.Answers.{discard_answer};
ghost use Rattle.plainstate.specs.Ran.{state_slices, Ran};

use answers::Refusal;
use plainstate::entries::{NO_PAGE, set_entry};
use plainstate::opening::open_page;

// Document 02's discard of the plain engine.
pub fn discard(state: &mut [u8], page: u32) -> Result<(), Refusal>
    ensures { Ran (discard page) state.old (discard_answer result) (state_slices state.new) }
{
    let d = open_page(state, page)?;
    set_entry(state, d, page, NO_PAGE);
    Ok(())
}
