// The entries: each logical page's, read and written.
ghost use Rattle.std.specs.Prelude.{◌≡◌, ◌<◌, set};
ghost use Rattle.plain.specs.Table.{with_entries, entry_at};
ghost use Rattle.front.specs.Read.{numbers_of};
ghost use Rattle.plainstate.specs.Reading.{read_table};
ghost use Rattle.plainstate.specs.Shaped.{Shaped};

use crate::places::entry_place;
use front::Numbers;

// The entry of a logical page that isn't written.
// Kept: what may not change is `Table.no_page`, the number that a state's bytes hold (docs/LAYOUT.md).
pub const NO_PAGE: u32 = 4294967295;

// The entry of logical page x.
pub fn entry(state: &[u8], d: Numbers, x: u32) -> u32
    requires { Shaped (numbers_of d) (read_table state.now) × (x < d.n) }
    ensures { result ≡ entry_at (read_table state.now) x }
{
    let p = entry_place(d, x);
    octets::get_u32(state, p)
}

// The entry of logical page x becomes v.
pub fn set_entry(state: &mut [u8], d: Numbers, x: u32, v: u32)
    requires { Shaped (numbers_of d) (read_table state.old) × (x < d.n) }
    ensures { read_table state.new
        ≡ with_entries (set (read_table state.old).entries x v) (read_table state.old) }
{
    let p = entry_place(d, x);
    octets::put_u32(state, p, v);
}
