// Discard: a logical page is marked, so that lookup looks at its records no more.
ghost use Rattle.calls.specs.History.{discard_call};
ghost use Rattle.answers.specs.Answers.{discard_answer};
ghost use Rattle.state.specs.Ran.{device_slices, Ran};

use answers::Refusal;
use state::marks::mark;
use state::opening::open_page;

// Document 02's discard.
pub fn discard(state: &mut [u8], spare: &[u32], page: u32) -> Result<(), Refusal>
    ensures { Ran (discard_call page) state.old spare.now (discard_answer result)
        (device_slices state.new spare.now) }
{
    // Kept: a `match`: the edit discard_accepts_refused changes what an arm answers. Behind a `?` it would change the places of the proof as
    // well, and be refused for that alone.
    let d = match open_page(state, spare, page) {
        Ok(d) => d,
        Err(refusal) => return Err(refusal),
    };
    mark(state, d, page);
    Ok(())
}
