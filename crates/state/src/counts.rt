// A block's count of written pages, written: what is read of the whole state then.
ghost use Rattle.std.specs.Prelude.{◌≡◌, ◌<◌, set};
ghost use Rattle.model.specs.State.{with_counts};
ghost use Rattle.front.specs.Read.{numbers_of};
ghost use Rattle.state.specs.Reading.{read_state};
ghost use Rattle.state.specs.Shaped.{Shaped};

use front::Numbers;

// Block k's count becomes v.
// Kept: what may not change is this promise, of the whole state; front::counts::set_count promises the front's bytes alone.
pub fn set_count(state: &mut [u8], d: Numbers, k: u32, v: u32)
    requires { Shaped (numbers_of d) (read_state state.old) × (k < d.m) × (v < 65536) }
    ensures { read_state state.new
        ≡ with_counts (set (read_state state.old).counts k v) (read_state state.old) }
{
    front::counts::set_count(state, d, k, v);
}
