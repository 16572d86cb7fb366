// Lookup: from a logical page to the page that holds it.
ghost use Rattle.calls.specs.History.{lookup_call};
ghost use Rattle.answers.specs.Answers.{lookup_answer};
ghost use Rattle.state.specs.Ran.{device_slices, Ran};

use answers::{Looked, Refusal};
use state::opening::open_page;
use state::seek::seek;

// Document 01's lookup.
pub fn lookup(state: &[u8], spare: &[u32], page: u32) -> Result<Looked, Refusal>
    ensures { Ran (lookup_call page) state.now spare.now (lookup_answer result)
        (device_slices state.now spare.now) }
{
    let d = open_page(state, spare, page)?;
    seek(state, spare, d, page)
}
