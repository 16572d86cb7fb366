// Agreement of two states, each with its spare area.
ghost use Rattle.std.specs.Prelude.{◌≡◌, List, ℕ};
ghost use Rattle.calls.specs.Agreement.{sound_checks};
ghost use Rattle.calls.specs.History.{agree_call};
ghost use Rattle.answers.specs.Answers.{agree_answer};
ghost use Rattle.answers.specs.Opening.{verdict, verdict_of};
ghost use Rattle.state.specs.Reading.{read_state};
ghost use Rattle.state.specs.Ran.{device_slices, Ran};

use crate::compare::compare;
use crate::side::Side;
use answers::Refusal;
use front::Numbers;
use state::groups::sound;
use state::opening::open_with_spare;

// The device numbers of a sound state with its spare area, or the refusal: 1, 2 or 3.
fn check(state: &[u8], spare: &[u32]) -> Result<Numbers, Refusal>
    ensures { verdict_of result ≡ verdict (sound_checks (read_state state.now) spare.now) (read_state state.now).device }
{
    let d = open_with_spare(state, spare)?;
    if !sound(state, d) {
        return Err(Refusal::NotSound);
    }
    Ok(d)
}

// Document 01's agreement, with what document 02, f also wants. It is lent two states with their spare areas, and writes none of them.
// Where N differs, each state is compared with itself: that refuses 7 if a lookup does.
pub fn agree(
    state_a: &[u8],
    spare_a: &[u32],
    state_b: &[u8],
    spare_b: &[u32],
) -> Result<bool, Refusal>
    ensures { (s spare : List ℕ) → Ran (agree_call (read_state state_a.now) spare_a.now (read_state state_b.now) spare_b.now)
        s spare (agree_answer result) (device_slices s spare) }
{
    let numbers_a = check(state_a, spare_a)?;
    let numbers_b = check(state_b, spare_b)?;
    let a = Side {
        state: state_a,
        spare: spare_a,
        d: numbers_a,
    };
    let b = Side {
        state: state_b,
        spare: spare_b,
        d: numbers_b,
    };
    if a.d.n == b.d.n {
        return compare(a, b);
    }
    compare(a, a)?;
    compare(b, b)?;
    Ok(false)
}
