// Listing a group: its records with their levels, ten bytes each, in a lent slice.
ghost use Rattle.std.specs.Prelude.{◌≡◌, true, ℕ, ◌*◌, ◌<◌, length};
ghost use mathlib.Core.List.{List, map, flatten};
ghost use Rattle.model.specs.Lists.{store};
ghost use Rattle.model.specs.Device.{group_count};
ghost use Rattle.model.specs.Levels.{record_count};
ghost use Rattle.model.specs.State.{group_at};
ghost use Rattle.model.specs.Sound.{sound_group};
ghost use Rattle.front.specs.Read.{numbers_of};
ghost use Rattle.answers.specs.Answers.{list_answer};
ghost use Rattle.group.specs.Layout.{slots_of};
ghost use Rattle.slots.specs.Coding.{ten, InTen};
ghost use Rattle.slots.specs.View.{Room};
ghost use Rattle.state.specs.Reading.{read_state};
ghost use Rattle.state.specs.Shaped.{Shaped};
ghost use Rattle.calls.specs.Listing.{group_bytes, listing_length};
ghost use Rattle.calls.specs.History.{list_call};
ghost use Rattle.state.specs.Ran.{listing_slices, Ran};

use answers::Refusal;
use front::Numbers;
use group::Slot;
use state::groups::{group_bytes, group_sound};
use state::numbers::group_count;
use state::opening::open_state;

// The length of `out`: ten bytes for each of 512 records.
pub const LISTING: usize = 5120;

// Stores a slot in ten bytes, as record i of the listing.
fn put_slot(out: &mut [u8], i: u32, s: Slot)
    requires { (length out.old ≡ listing_length) × (i < 512) × InTen s }
    ensures { out.new ≡ store out.old (i * 10) (ten s) }
{
    let p = (i as usize) * 10;
    let held = s.held;
    held.encode(out, p);
    octets::put_u16(out, p + 8, s.level);
}

// Stores a group's slots one after the other; how many there are.
fn list_slots(b: &[u8], out: &mut [u8]) -> u32
    requires { Room b.now × (length out.old ≡ listing_length) }
    ensures { (result ≡ length (slots_of b.now)) × (out.new ≡ store out.old 0 (flatten (map ten (slots_of b.now)))) }
{
    let n = slots::used(b);
    for i in 0..n {
        put_slot(out, i, slots::get(b, i));
    }
    n
}

// Lists group k, which is sound; how many records it has.
fn list_group(state: &[u8], d: Numbers, k: u32, out: &mut [u8]) -> u32
    requires { Shaped (numbers_of d) (read_state state.now) × (k < group_count (numbers_of d))
        × (sound_group d.n k (group_at (read_state state.now) k) ≡ true) × (length out.old ≡ listing_length) }
    ensures { (result ≡ record_count (group_at (read_state state.now) k))
        × (out.new ≡ store out.old 0 (group_bytes 0 (group_at (read_state state.now) k))) }
{
    list_slots(group_bytes(state, d, k), out)
}

// Lists a group's records: levels downward, each ascending. It is lent no spare area: whatever that is, it stays.
pub fn list(state: &[u8], group: u32, out: &mut [u8]) -> Result<u32, Refusal>
    ensures { (spare : List ℕ) → Ran (list_call group out.old) state.now spare (list_answer result)
        (listing_slices state.now spare out.new) }
{
    let d = open_state(state)?;
    if out.len() != LISTING {
        return Err(Refusal::BadLength);
    }
    if group_count(d) <= group {
        return Err(Refusal::OutOfRange);
    }
    if !group_sound(state, d, group) {
        return Err(Refusal::NotSound);
    }
    let n = list_group(state, d, group, out);
    Ok(n)
}
