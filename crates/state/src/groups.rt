// The groups: each one's bytes are a part that starts in the middle of the state, handed on.
ghost use Rattle.std.specs.Prelude.{◌≡◌, true, ◌<◌, length};
ghost use Rattle.std.proofs.Math.Option.{map};
ghost use Rattle.model.specs.Device.{group_count, group_length};
ghost use Rattle.model.specs.Options.{as_option};
ghost use Rattle.model.specs.Levels.{listing, holder, levels_to};
ghost use Rattle.model.specs.State.{group_at};
ghost use Rattle.model.specs.Sound.{sound_group, sound_groups, sound_state};
ghost use Rattle.front.specs.Read.{numbers_of};
ghost use Rattle.record.specs.Read.{bare};
ghost use Rattle.group.specs.Reading.{read_group};
ghost use Rattle.forecast.specs.Forecast.{Forecasts};
ghost use Rattle.state.specs.Reading.{read_state};
ghost use Rattle.state.specs.Shaped.{Shaped};

use crate::numbers::{group_count, group_end, group_place};
use front::Numbers;
use front::counts::counts_sound;
use group::Descent;

// The bytes of group k.
pub fn group_bytes(state: &[u8], d: Numbers, k: u32) -> &[u8]
    requires { Shaped (numbers_of d) (read_state state.now) × (k < group_count (numbers_of d)) }
    ensures long { length result.now ≡ group_length }
    ensures read { read_group result.now ≡ group_at (read_state state.now) k }
{
    &state[group_place(d, k)..group_end(d, k)]
}

// Whether group k is sound.
pub fn group_sound(state: &[u8], d: Numbers, k: u32) -> bool
    requires { Shaped (numbers_of d) (read_state state.now) × (k < group_count (numbers_of d)) }
    ensures { result ≡ sound_group d.n k (group_at (read_state state.now) k) }
{
    group::sound(group_bytes(state, d, k), d.n, k)
}

// Where offset o is found in group k, which is sound.
pub(crate) fn find(state: &[u8], d: Numbers, k: u32, o: u32) -> Descent
    requires { Shaped (numbers_of d) (read_state state.now) × (k < group_count (numbers_of d))
        × (sound_group d.n k (group_at (read_state state.now) k) ≡ true) × (o < 256) }
    ensures { (as_option result.held ≡ map bare (holder o (listing (group_at (read_state state.now) k))))
        × (result.levels ≡ levels_to o (group_at (read_state state.now) k)) }
{
    group::find(group_bytes(state, d, k), o)
}

// The forecasts of the offsets of group k, which is sound.
pub(crate) fn foretell(state: &[u8], d: Numbers, k: u32, forecasts: &mut [u32])
    requires { Shaped (numbers_of d) (read_state state.now) × (k < group_count (numbers_of d))
        × (sound_group d.n k (group_at (read_state state.now) k) ≡ true) × (length forecasts.old ≡ 256) }
    ensures { Forecasts (group_at (read_state state.now) k) forecasts.new }
{
    forecast::foretell(group_bytes(state, d, k), forecasts);
}

// Whether all groups are sound.
fn groups_sound(state: &[u8], d: Numbers) -> bool
    requires { Shaped (numbers_of d) (read_state state.now) }
    ensures { result ≡ sound_groups d.n 0 (read_state state.now).groups }
{
    for k in 0..group_count(d) {
        if !group_sound(state, d, k) {
            return false;
        }
    }
    true
}

// Whether the state is sound: all groups are, and no block's count exceeds B.
pub fn sound(state: &[u8], d: Numbers) -> bool
    requires { Shaped (numbers_of d) (read_state state.now) }
    ensures { result ≡ sound_state (read_state state.now) }
{
    groups_sound(state, d) && counts_sound(state, d)
}
