// The places and the length that the device numbers give (docs/LAYOUT.md).
ghost use Rattle.std.specs.Prelude.{◌≡◌, ◌≤◌};
ghost use Rattle.plain.specs.Table.{table_length};
ghost use Rattle.front.specs.Read.{numbers_of};
ghost use Rattle.plainstate.specs.Reading.{entry_place};

use front::Numbers;
use front::counts::count_place;

// The bytes of an entry.
const ENTRY: usize = 4;

// The place of logical page x's entry, and of what follows the last one.
pub fn entry_place(d: Numbers, x: u32) -> usize
    requires { x ≤ d.n }
    ensures { result ≡ entry_place (numbers_of d) x }
{
    count_place(d.m) + ENTRY * (x as usize)
}

// The length of the state, in bytes.
pub fn table_len(d: Numbers) -> usize
    ensures { result ≡ table_length (numbers_of d) }
{
    entry_place(d, d.n)
}
