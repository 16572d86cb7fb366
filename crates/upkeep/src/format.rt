// Format: the device numbers, all blocks free, no logical page marked, all groups empty, every spare entry naming nobody.
ghost use Rattle.std.specs.Prelude.{◌≡◌, [], ◌<◌, length, set, replicate};
ghost use Rattle.model.specs.Device.{group_count, marks_count, group_length, state_length};
ghost use Rattle.model.specs.State.{with_counts, with_marks, with_groups};
ghost use Rattle.calls.specs.Format.{blank_state};
ghost use Rattle.calls.specs.History.{format_call};
ghost use Rattle.front.specs.Read.{numbers_of};
ghost use Rattle.answers.specs.Answers.{format_answer};
ghost use Rattle.group.specs.Reading.{read_group};
ghost use Rattle.state.specs.Reading.{read_state};
ghost use Rattle.state.specs.Shaped.{Shaped};
ghost use Rattle.state.specs.Ran.{device_slices, Ran};

use answers::Refusal;
use front::device::write_numbers;
use front::{Head, Numbers};
use group::{OWNED_AT, USED_AT};
use state::counts::set_count;
use state::marks::set_marks_byte;
use state::numbers::{group_count, group_end, group_place, marks_count, state_len};

// Every block becomes free.
// Kept: the plain engine's format has a twin, but that promises by its own reading, `read_table`; one for both is no plainer.
fn free_blocks(state: &mut [u8], d: Numbers)
    requires { Shaped (numbers_of d) (read_state state.old) }
    ensures { read_state state.new ≡ with_counts (replicate d.m 0) (read_state state.old) }
{
    for k in 0..d.m {
        set_count(state, d, k, 0);
    }
}

// No logical page is marked any more.
fn clear_marks(state: &mut [u8], d: Numbers)
    requires { Shaped (numbers_of d) (read_state state.old) }
    ensures { read_state state.new ≡ with_marks (replicate (marks_count (numbers_of d)) 0) (read_state state.old) }
{
    for k in 0..marks_count(d) {
        set_marks_byte(state, d, k, 0);
    }
}

// A group's bytes become an empty group's: no slot is used and no offset owned. The bytes behind mean nothing then, and stay.
fn empty(b: &mut [u8])
    requires { length b.old ≡ group_length }
    ensures { read_group b.new ≡ [] }
{
    octets::put_u16(b, USED_AT, 0);
    octets::put_u16(b, OWNED_AT, 0);
}

// Group k becomes empty.
fn empty_group(state: &mut [u8], d: Numbers, k: u32)
    requires { Shaped (numbers_of d) (read_state state.old) × (k < group_count (numbers_of d)) }
    ensures { read_state state.new
        ≡ with_groups (set (read_state state.old).groups k []) (read_state state.old) }
{
    let a = group_place(d, k);
    let e = group_end(d, k);
    empty(&mut state[a..e]);
}

// Every group becomes empty.
fn empty_groups(state: &mut [u8], d: Numbers)
    requires { Shaped (numbers_of d) (read_state state.old) }
    ensures { read_state state.new ≡ with_groups (replicate (group_count (numbers_of d)) []) (read_state state.old) }
{
    for k in 0..group_count(d) {
        empty_group(state, d, k);
    }
}

// The state of a device that holds nothing.
fn blank(state: &mut [u8], d: Numbers)
    requires { length state.old ≡ state_length (numbers_of d) }
    ensures { read_state state.new ≡ blank_state (numbers_of d) }
{
    write_numbers(state, d.head());
    free_blocks(state, d);
    clear_marks(state, d);
    empty_groups(state, d);
}

// Document 01's format.
pub fn format(
    m: u32,
    b: u32,
    n: u32,
    g: u32,
    state: &mut [u8],
    spare: &mut [u32],
) -> Result<(), Refusal>
    ensures { Ran (format_call (record { M = m; B = b; N = n; g = g }))
        state.old spare.old (format_answer result) (device_slices state.new spare.new) }
{
    let Some(d) = Head { m, b, n, g }.checked() else {
        return Err(Refusal::BadNumbers);
    };
    if state.len() != state_len(d) {
        return Err(Refusal::BadLength);
    }
    if spare.len() != spare::spare_len(d) {
        return Err(Refusal::BadLength);
    }
    blank(state, d);
    spare::erase_all(spare);
    Ok(())
}
