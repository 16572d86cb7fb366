// The owners of a group's offsets: what is left of a record that loses offsets, and the offsets that a new record gets.
ghost use Rattle.std.specs.Prelude.{◌≡◌, true, ℕ, ◌+◌, ◌<◌, ◌≤◌, length};
ghost use Rattle.model.specs.Device.{group_length};
ghost use Rattle.model.specs.Record.{kind_of, is_approximate};
ghost use Rattle.record.specs.Scan.{masked};
ghost use Rattle.group.specs.Layout.{offsets, slots_of, owner_of};
ghost use Rattle.slots.specs.View.{Room, Shows, Owned, OwnerPut, OwnersPut, OwnsInRange, LeftOf};
ghost use Rattle.slots.specs.Owners.{taken_by, handed_on, left_to};

use group::{OFFSETS, OWNED_AT, OWNER_BYTES, OWNERS_AT};
use record::Record;

// The owner of offset o, where owners are read.
pub fn owner(b: &[u8], o: u32) -> u32
    requires { (length b.now ≡ group_length) × (o < offsets) × Owned b.now }
    ensures { (result ≡ owner_of b.now o) × (result < 65536) }
{
    octets::get_u16(b, OWNERS_AT + (o as usize) * OWNER_BYTES)
}

// Names w the owner of offset o, where owners are read.
fn set_owner(b: &mut [u8], o: u32, w: u32)
    requires { Room b.old × (o < offsets) × (w < 65536) × Owned b.old }
    ensures { OwnerPut b.old b.new o w }
{
    octets::put_u16(b, OWNERS_AT + (o as usize) * OWNER_BYTES, w);
}

// Whether offset o stays with the record that starts at `start`: it owns it, and it isn't taken.
fn stays(b: &[u8], start: u32, taken: &[u8], o: u32) -> bool
    requires { (length b.now ≡ group_length) × Owned b.now × (start < offsets) × (length taken.now ≡ offsets) × (o < offsets) }
    ensures { result ≡ left_to start (masked taken.now o) (owner_of b.now o) }
{
    owner(b, o) == start + 1 && taken[o as usize] == 0
}

// Names the owners of the offsets from `start` to before `end` anew: those taken have none, the record's others `to`.
fn hand_on(b: &mut [u8], start: u32, end: u32, taken: &[u8], to: u32)
    requires { Room b.old × Owned b.old × (start ≤ end) × (end ≤ offsets) × (start < offsets) × (length taken.now ≡ offsets) × (to < offsets) }
    ensures { OwnersPut (λ o w. handed_on start (masked taken.now o) to w) b.old b.new start end }
{
    for o in start..end {
        let w = owner(b, o);
        let goes = taken[o as usize] != 0;
        let heir = if goes { 0 } else { to + 1 };
        let v = if w == start + 1 { heir } else { w };
        set_owner(b, o, v);
    }
}

// What is left of an approximate record of the group.
fn left_of_owner(b: &mut [u8], r: Record, taken: &[u8]) -> Option<Record>
    requires { Room b.old × Owned b.old × (r.start + r.span ≤ 255) × (length taken.now ≡ offsets)
        × (is_approximate (kind_of r.word) ≡ true) × OwnsInRange (owner_of b.old) r }
    ensures { LeftOf b.old b.new taken.now r result }
{
    let start = r.start;
    let e = start + r.span;
    let stays = |o: u32| stays(b, start, taken, o);
    let Some(f) = record::first(stays, start, 1, e) else {
        hand_on(b, start, e + 1, taken, 0);
        return None;
    };
    let span = record::last(stays, f, 1, e) - f;
    hand_on(b, start, e + 1, taken, f);
    Some(Record {
        start: f,
        span,
        ..r
    })
}

// What is left of a record of the group without the offsets taken; an approximate one gives up their ownership.
pub fn left_of(b: &mut [u8], r: Record, taken: &[u8]) -> Option<Record>
    requires { Room b.old × (r.start + r.span ≤ 255) × (length taken.now ≡ offsets) × OwnsInRange (owner_of b.old) r }
    ensures { LeftOf b.old b.new taken.now r result }
{
    if !r.is_approximate() {
        r.shrink_accurate(taken)
    } else if group::flag(b) == 0 {
        None
    } else {
        left_of_owner(b, r, taken)
    }
}

// Leaves every offset without an owner, where owners are read.
fn clear(b: &mut [u8])
    requires { Room b.old × Owned b.old }
    ensures { OwnersPut (λ o w. 0) b.old b.new 0 offsets }
{
    for o in 0..OFFSETS {
        set_owner(b, o, 0);
    }
}

// Has owners read: where the flag was 0 no offset has one.
fn open_owners(b: &mut [u8])
    requires { Room b.old }
    ensures { Shows b.new (slots_of b.old) (owner_of b.old) × Owned b.new }
{
    if group::flag(b) == 0 {
        octets::put_u16(b, OWNED_AT, 1);
        clear(b);
    }
}

// Gives the offsets of the mask from `start` to before `end` to the record that starts at `start`, where owners are read.
fn own_from(b: &mut [u8], start: u32, end: u32, mask: &[u8])
    requires { Room b.old × Owned b.old × (start ≤ end) × (end ≤ offsets) × (start < offsets) × (length mask.now ≡ offsets) }
    ensures { OwnersPut (λ o w. taken_by start (masked mask.now o) w) b.old b.new start end }
{
    for o in start..end {
        let w = owner(b, o);
        let v = if mask[o as usize] != 0 { start + 1 } else { w };
        set_owner(b, o, v);
    }
}

// Gives the offsets of the mask, which lie in r's range, to r.
pub fn own(b: &mut [u8], r: Record, mask: &[u8])
    requires { Room b.old × (r.start + r.span ≤ 255) × (length mask.now ≡ offsets)
        × ((o : ℕ) → o < offsets → masked mask.now o ≡ true → (r.start ≤ o) × (o ≤ r.start + r.span)) }
    ensures { Shows b.new (slots_of b.old) (λ (o : ℕ). taken_by r.start (masked mask.now o) (owner_of b.old o)) }
{
    open_owners(b);
    let start = r.start;
    own_from(b, start, start + r.span + 1, mask);
}
