// The places and lengths that the device numbers give (docs/LAYOUT.md).
ghost use Rattle.std.specs.Prelude.{◌≡◌, ◌+◌, ◌≤◌};
ghost use Rattle.model.specs.Device.{group_count, marks_count, group_length, state_length};
ghost use Rattle.front.specs.Read.{numbers_of};
ghost use Rattle.state.specs.Reading.{marks_place, group_place};

use front::Numbers;
use front::counts::count_place;

// The bytes of a group; eight marks have one.
const GROUP: usize = 5636;

// How many groups the logical pages have.
pub fn group_count(d: Numbers) -> u32
    ensures { result ≡ group_count (numbers_of d) }
{
    d.n.div_ceil(256)
}

// How many bytes the marks of discarded logical pages take.
pub fn marks_count(d: Numbers) -> u32
    ensures { result ≡ marks_count (numbers_of d) }
{
    d.n.div_ceil(8)
}

// The place of byte k of the marks, and of what follows the last one.
pub(crate) fn marks_place(d: Numbers, k: u32) -> usize
    requires { k ≤ marks_count (numbers_of d) }
    ensures { result ≡ marks_place (numbers_of d) k }
{
    count_place(d.m) + (k as usize)
}

// The place of group k, and of what follows the last one.
pub fn group_place(d: Numbers, k: u32) -> usize
    requires { k ≤ group_count (numbers_of d) }
    ensures { result ≡ group_place (numbers_of d) k }
{
    let n = marks_count(d);
    marks_place(d, n) + (k as usize) * GROUP
}

// Where group k ends.
pub fn group_end(d: Numbers, k: u32) -> usize
    requires { k ≤ group_count (numbers_of d) }
    ensures { result ≡ group_place (numbers_of d) k + group_length }
{
    group_place(d, k) + GROUP
}

// The length of the state, in bytes.
pub fn state_len(d: Numbers) -> usize
    ensures { result ≡ state_length (numbers_of d) }
{
    let n = group_count(d);
    group_place(d, n)
}
