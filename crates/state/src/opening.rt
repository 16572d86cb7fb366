// The checks that every call on a formatted state begins with: on the state alone, or with its spare area; and all those of a call on
// one logical page.
ghost use Rattle.std.specs.Prelude.{◌≡◌, []};
ghost use Rattle.calls.specs.Refusals.{opening, opening_with};
ghost use Rattle.calls.specs.Lookup.{lookup_checks};
ghost use Rattle.calls.specs.History.{lend};
ghost use Rattle.answers.specs.Opening.{verdict, verdict_of};
ghost use Rattle.state.specs.Reading.{read_state};

use crate::groups::group_sound;
use crate::numbers::state_len;
use answers::Refusal;
use front::Numbers;
use front::device::{HEAD, numbers};

// The device numbers of a state that has them, within their limits, and the length that they give.
// Kept: beside plainstate's open_table: what may not change are the two promises, each of its engine's checks and reading.
pub fn open_state(state: &[u8]) -> Result<Numbers, Refusal>
    ensures { verdict_of result ≡ verdict (opening (read_state state.now)) (read_state state.now).device }
{
    if state.len() < HEAD {
        return Err(Refusal::BadNumbers);
    }
    let Some(d) = numbers(state).checked() else {
        return Err(Refusal::BadNumbers);
    };
    if state.len() != state_len(d) {
        return Err(Refusal::BadLength);
    }
    Ok(d)
}

// So, and the spare area has the length that they give.
pub fn open_with_spare(state: &[u8], spare: &[u32]) -> Result<Numbers, Refusal>
    ensures { verdict_of result ≡ verdict (opening_with (read_state state.now) spare.now) (read_state state.now).device }
{
    let d = open_state(state)?;
    if spare.len() != spare::spare_len(d) {
        return Err(Refusal::BadLength);
    }
    Ok(d)
}

// So, and the logical page is below N and its group sound. The group's test gets a copy of the numbers: d itself stays in registers.
pub fn open_page(state: &[u8], spare: &[u32], page: u32) -> Result<Numbers, Refusal>
    ensures { verdict_of result ≡ verdict (lookup_checks page (lend (read_state state.now) spare.now [] [])) (read_state state.now).device }
{
    let d = open_with_spare(state, spare)?;
    if d.n <= page {
        return Err(Refusal::OutOfRange);
    }
    let copy = d;
    if !group_sound(state, copy, page / 256) {
        return Err(Refusal::NotSound);
    }
    Ok(d)
}
