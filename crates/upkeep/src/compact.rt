// Compaction: one group's records shrink by those above them and are put back.
ghost use Rattle.std.specs.Prelude.{◌≡◌, List, true, ℕ, ◌<◌};
ghost use Rattle.model.specs.Device.{group_count};
ghost use Rattle.model.specs.Levels.{record_count, compact as compacted};
ghost use Rattle.model.specs.State.{group_at};
ghost use Rattle.model.specs.Sound.{sound_group};
ghost use Rattle.calls.specs.Compaction.{compact_group};
ghost use Rattle.calls.specs.History.{compact_call};
ghost use Rattle.front.specs.Read.{numbers_of};
ghost use Rattle.front.specs.Reading.{numbers_at};
ghost use Rattle.answers.specs.Answers.{compact_answer};
ghost use Rattle.state.specs.Reading.{read_state};
ghost use Rattle.state.specs.Outside.{SameOutside};
ghost use Rattle.state.specs.Shaped.{Shaped};
ghost use Rattle.state.specs.Ran.{device_slices, Ran};

use answers::Refusal;
use front::Numbers;
use state::groups::group_sound;
use state::numbers::{group_count, group_end, group_place};
use state::opening::open_state;

// Compacts group k, which is sound; how many records are left.
fn compact_group(state: &mut [u8], d: Numbers, k: u32) -> u32
    requires { Shaped (numbers_of d) (read_state state.old) × (k < group_count (numbers_of d))
        × (sound_group d.n k (group_at (read_state state.old) k) ≡ true) }
    ensures read { (read_state state.new ≡ compact_group k (read_state state.old))
        × (result ≡ record_count (compacted (group_at (read_state state.old) k))) }
    ensures outside { SameOutside (numbers_at state.old) k state.old state.new }
{
    let a = group_place(d, k);
    let e = group_end(d, k);
    compaction::compact(&mut state[a..e])
}

// Document 01's compaction; how many records are left. It is lent no spare area: whatever that is, it stays. So does each byte outside
// the group's part.
pub fn compact(state: &mut [u8], group: u32) -> Result<u32, Refusal>
    ensures ran { (spare : List ℕ) → Ran (compact_call group) state.old spare (compact_answer result) (device_slices state.new spare) }
    ensures outside { SameOutside (numbers_at state.old) group state.old state.new }
{
    let d = open_state(state)?;
    if group_count(d) <= group {
        return Err(Refusal::OutOfRange);
    }
    if !group_sound(state, d, group) {
        return Err(Refusal::NotSound);
    }
    Ok(compact_group(state, d, group))
}
