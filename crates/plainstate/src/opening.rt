// The checks that every call on a formatted plain state begins with, and all those of a call on one logical page.
ghost use Rattle.std.specs.Prelude.{◌≡◌};
ghost use Rattle.plain.specs.Calls.{opening, entry_checks};
ghost use Rattle.answers.specs.Opening.{verdict, verdict_of};
ghost use Rattle.plainstate.specs.Reading.{read_table};

use crate::entries::entry;
use crate::places::table_len;
use crate::sound::entry_sound;
use answers::Refusal;
use front::Numbers;
use front::device::{HEAD, numbers};

// The device numbers of a state that has them, within their limits, and the length that they give.
pub fn open_table(state: &[u8]) -> Result<Numbers, Refusal>
    ensures { verdict_of result ≡ verdict (opening (read_table state.now)) (read_table state.now).device }
{
    if state.len() < HEAD {
        return Err(Refusal::BadNumbers);
    }
    let Some(d) = numbers(state).checked() else {
        return Err(Refusal::BadNumbers);
    };
    if state.len() != table_len(d) {
        return Err(Refusal::BadLength);
    }
    Ok(d)
}

// So, and the logical page is below N and its entry sound.
pub fn open_page(state: &[u8], x: u32) -> Result<Numbers, Refusal>
    ensures { verdict_of result ≡ verdict (entry_checks x (read_table state.now)) (read_table state.now).device }
{
    let d = open_table(state)?;
    if d.n <= x {
        return Err(Refusal::OutOfRange);
    }
    let e = entry(state, d, x);
    if !entry_sound(state, d, e) {
        return Err(Refusal::NotSound);
    }
    Ok(d)
}
