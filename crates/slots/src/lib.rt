// The writes on one group's bytes: its slots put, inserted, moved, removed and renumbered; `owners` names its offsets' owners anew.
#![tactic(auto)]

pub mod owners;

ghost use Rattle.std.specs.Prelude.{◌≡◌, true, ◌+◌, ◌-◌, ◌<◌, ◌≤◌, length, get_or};
ghost use Rattle.model.specs.Device.{group_length};
ghost use Rattle.model.specs.Lists.{all, store};
ghost use Rattle.model.specs.Levels.{group_limit};
ghost use Rattle.octets.specs.Slots.{insert_at, remove_at};
ghost use Rattle.group.specs.Layout.{used_of, slots_from, slots_of, owner_of, slot_place};
ghost use Rattle.group.specs.Answers.{no_slot};
ghost use Rattle.slots.specs.Coding.{ten, InTen};
ghost use Rattle.slots.specs.View.{Room, Shows};
ghost use Rattle.slots.specs.Edits.{replace_at, at_level, push_down_from, can_go_down, renumber_levels};

use group::{LEVEL_AT, SLOT_BYTES, SLOTS_AT, Slot, USED_AT};

// How many slots are used.
pub fn used(b: &[u8]) -> u32
    requires { length b.now ≡ group_length }
    ensures { (result ≡ used_of b.now) × (result ≡ length (slots_of b.now)) × (result < 65536) }
{
    group::used(b)
}

// Has the first n slots read as the used ones, whatever they hold.
pub fn set_used(b: &mut [u8], n: u32)
    requires { (length b.old ≡ group_length) × (n ≤ group_limit) }
    ensures { Shows b.new (slots_from b.old 0 n) (owner_of b.old) }
{
    octets::put_u16(b, USED_AT, n);
}

// The level of slot i.
pub fn level(b: &[u8], i: u32) -> u32
    requires { Room b.now × (i < length (slots_of b.now)) }
    ensures { (result ≡ (get_or (slots_of b.now) i no_slot).level) × (result < 65536) }
{
    group::level(b, i as usize)
}

// Slot i.
pub fn get(b: &[u8], i: u32) -> Slot
    requires { Room b.now × (i < length (slots_of b.now)) }
    ensures { (result ≡ get_or (slots_of b.now) i no_slot) × InTen result }
{
    group::slot_at(b, i as usize)
}

// Stores s in the ten bytes of slot i, whether that is used or not.
fn write(b: &mut [u8], i: u32, s: Slot)
    requires { (length b.old ≡ group_length) × (i < group_limit) × InTen s }
    ensures { b.new ≡ store b.old (slot_place i) (ten s) }
{
    let p = SLOTS_AT + (i as usize) * SLOT_BYTES;
    let held = s.held;
    held.encode(b, p);
    octets::put_u16(b, p + LEVEL_AT, s.level);
}

// Puts s as slot i.
pub fn put(b: &mut [u8], i: u32, s: Slot)
    requires { Room b.old × (i < length (slots_of b.old)) × InTen s }
    ensures { Shows b.new (replace_at i s (slots_of b.old)) (owner_of b.old) }
{
    write(b, i, s);
}

// Puts s in before slot i.
pub fn insert(b: &mut [u8], i: u32, s: Slot)
    requires { (length b.old ≡ group_length) × (i ≤ length (slots_of b.old)) × (length (slots_of b.old) < group_limit) × InTen s }
    ensures { Shows b.new (insert_at i s (slots_of b.old)) (owner_of b.old) }
{
    let n = used(b);
    octets::open_slot(b, SLOTS_AT, SLOT_BYTES, n as usize, i as usize);
    write(b, i, s);
    octets::put_u16(b, USED_AT, n + 1);
}

// Takes slot i out.
pub fn remove(b: &mut [u8], i: u32)
    requires { Room b.old × (i < length (slots_of b.old)) }
    ensures { Shows b.new (remove_at i (slots_of b.old)) (owner_of b.old) }
{
    let n = used(b);
    octets::close_slot(b, SLOTS_AT, SLOT_BYTES, n as usize, i as usize);
    octets::put_u16(b, USED_AT, n - 1);
}

// Takes slot i out, and puts s in before slot p, which stands behind it.
pub fn shift(b: &mut [u8], i: u32, p: u32, s: Slot)
    requires { Room b.old × (i < p) × (p ≤ length (slots_of b.old)) × InTen s }
    ensures { Shows b.new (insert_at (p - 1) s (remove_at i (slots_of b.old))) (owner_of b.old) }
{
    octets::close_slot(b, SLOTS_AT, SLOT_BYTES, p as usize, i as usize);
    write(b, p - 1, s);
}

// Gives slot i the level n.
fn relevel(b: &mut [u8], i: u32, n: u32)
    requires { Room b.old × (i < length (slots_of b.old)) × (n < 65536) }
    ensures { Shows b.new (replace_at i (at_level n (get_or (slots_of b.old) i no_slot)) (slots_of b.old)) (owner_of b.old) }
{
    octets::put_u16(b, SLOTS_AT + (i as usize) * SLOT_BYTES + LEVEL_AT, n);
}

// Puts slot i and all behind it one level further down.
pub fn push_down(b: &mut [u8], i: u32)
    requires { Room b.old × (all can_go_down (slots_of b.old) ≡ true) }
    ensures { Shows b.new (push_down_from i (slots_of b.old)) (owner_of b.old) }
{
    let n = used(b);
    for j in i..n {
        let l = level(b, j);
        relevel(b, j, l + 1);
    }
}

// Numbers the levels anew, so that none but level 0 is missing.
pub fn renumber_levels(b: &mut [u8])
    requires { Room b.old }
    ensures { Shows b.new (renumber_levels 0 0 (slots_of b.old)) (owner_of b.old) }
{
    let n = used(b);
    let mut old = 0;
    let mut new = 0;
    for k in 0..n {
        let l = level(b, k);
        if l != old {
            new += 1;
        }
        old = l;
        relevel(b, k, new);
    }
}
