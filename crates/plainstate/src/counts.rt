// A block's count of written pages, written: what is read of the whole table then.
ghost use Rattle.std.specs.Prelude.{◌≡◌, ◌<◌, set};
ghost use Rattle.plain.specs.Table.{with_counts};
ghost use Rattle.front.specs.Read.{numbers_of};
ghost use Rattle.plainstate.specs.Reading.{read_table};
ghost use Rattle.plainstate.specs.Shaped.{Shaped};

use front::Numbers;

// Block k's count becomes v.
// Kept: beside state::counts::set_count over the same front::counts::set_count; each promises what its own state reads then, a Table or a State.
pub fn set_count(state: &mut [u8], d: Numbers, k: u32, v: u32)
    requires { Shaped (numbers_of d) (read_table state.old) × (k < d.m) × (v < 65536) }
    ensures { read_table state.new
        ≡ with_counts (set (read_table state.old).counts k v) (read_table state.old) }
{
    front::counts::set_count(state, d, k, v);
}
