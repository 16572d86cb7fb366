// One group in its lent bytes: whether it is sound, what it holds, and where an offset is found.
#![tactic(auto)]

ghost use Rattle.std.specs.Prelude.{◌≡◌, true, suc, ◌+◌, ◌-◌, ◌<◌, ◌≤◌, length};
ghost use Rattle.std.proofs.Math.Option.{map};
ghost use Rattle.model.specs.Device.{group_length};
ghost use Rattle.model.specs.Options.{as_option};
ghost use Rattle.model.specs.Levels.{listing, record_count, group_limit, holder, levels_to};
ghost use Rattle.model.specs.Sound.{sound_group};
ghost use Rattle.record.specs.Read.{bare};
ghost use Rattle.record.specs.Coding.{InEight};
ghost use Rattle.group.specs.Layout.{offsets, used_of, flag_of, slot_of, slot_level, slots_of, entries_of, owner_of, levels_at};
ghost use Rattle.group.specs.Reading.{encodes, read_group, SoundBytes};
ghost use Rattle.group.specs.Checking.{approx, offsets_in, shaped, InLast, free_from, slot_stands, slots_pass, no_owners, without, owns_ends, taken, left_by, unowned};

use record::Record;

// A group's bytes (docs/LAYOUT.md, 'A group').
// Kept: tried: `&mut [u8; GROUP_BYTES]` of a part of the state, in place of a slice and its length; nothing is known then of what that part
// holds after, and the proofs of those that write it don't close.
pub const GROUP_BYTES: usize = 5636;

// Where the number of used slots stands, the flag that owners are read, the slots and the owners.
pub const USED_AT: usize = 0;

pub const OWNED_AT: usize = 2;

pub const SLOTS_AT: usize = 4;

pub const OWNERS_AT: usize = 5124;

// A slot's bytes, and where in them its level stands; an owner's bytes.
pub const SLOT_BYTES: usize = 10;

pub const LEVEL_AT: usize = record::RECORD_BYTES;

pub const OWNER_BYTES: usize = 2;

// How many slots a group has, and how many offsets.
pub const SLOTS: u32 = 512;

pub const OFFSETS: u32 = 256;

// The words of stride 1, of the widest stride, 255, and of the steepest slope, 256.
const STRIDE_1: u32 = 2;

const WIDEST: u32 = 510;

const STEEPEST: u32 = 513;

// A used slot: a record, and the number of its level.
#[derive(Clone, Copy)]
pub struct Slot {
    pub level: u32,
    pub held: Record,
}

// The first record from the top that has an offset as a member, if there is one, and how many levels were looked at.
#[derive(Clone, Copy)]
pub struct Descent {
    pub held: Option<Record>,
    pub levels: u32,
}

// How many slots are used.
pub fn used(b: &[u8]) -> u32
    requires { length b.now ≡ group_length }
    ensures { (result ≡ used_of b.now) × (result < 65536) }
{
    octets::get_u16(b, USED_AT)
}

// The flag: 0 while no offset is owned.
pub fn flag(b: &[u8]) -> u32
    requires { length b.now ≡ group_length }
    ensures { result ≡ flag_of b.now }
{
    octets::get_u16(b, OWNED_AT)
}

// The level of slot i.
pub fn level(b: &[u8], i: usize) -> u32
    requires { (length b.now ≡ group_length) × (i < group_limit) }
    ensures { (result ≡ slot_level b.now i) × (result < 65536) }
{
    octets::get_u16(b, SLOTS_AT + i * SLOT_BYTES + LEVEL_AT)
}

// Slot i.
pub fn slot_at(b: &[u8], i: usize) -> Slot
    requires { (length b.now ≡ group_length) × (i < group_limit) }
    ensures { (result ≡ slot_of b.now i) × (result.level < 65536) × InEight result.held }
{
    let held = record::decode(b, SLOTS_AT + i * SLOT_BYTES);
    let level = level(b, i);
    Slot { level, held }
}

// The owner of offset o: the start of its record plus 1, or 0.
// Kept: what may not change is `Layout.owner_of`, the number that the bytes hold (docs/LAYOUT.md).
pub fn owner(b: &[u8], o: u32) -> u32
    requires { (length b.now ≡ group_length) × (o < offsets) }
    ensures { (result ≡ owner_of b.now o) × (result < 65536) }
{
    if flag(b) == 0 {
        0
    } else {
        octets::get_u16(b, OWNERS_AT + (o as usize) * OWNER_BYTES)
    }
}

// How many levels the first i slots have.
pub fn levels_at(b: &[u8], i: usize) -> u32
    requires { (length b.now ≡ group_length) × (i ≤ group_limit) }
    ensures { result ≡ levels_at b.now i }
{
    if i == 0 { 0 } else { level(b, i - 1) + 1 }
}

// How many records the group holds.
pub fn record_count(b: &[u8]) -> u32
    requires { (length b.now ≡ group_length) × (encodes b.now ≡ true) }
    ensures { result ≡ record_count (read_group b.now) }
{
    used(b)
}

// Where offset o is found, in a sound group.
pub fn find(b: &[u8], o: u32) -> Descent
    requires { (length b.now ≡ group_length) × SoundBytes b.now × (o < offsets) }
    ensures { (as_option result.held ≡ map bare (holder o (listing (read_group b.now)))) × (result.levels ≡ levels_to o (read_group b.now)) }
{
    let n = used(b) as usize;
    let w = owner(b, o);
    for i in 0..n {
        let s = slot_at(b, i);
        let r = s.held;
        if r.member(o, w == r.start + 1) {
            return Descent {
                held: Some(r),
                levels: s.level + 1,
            };
        }
    }
    Descent {
        held: None,
        levels: levels_at(b, n),
    }
}

// How many offsets of group k are among n pages.
fn offsets_in(n: u32, k: u32) -> u32
    requires { k ≤ 4096 }
    ensures { (result ≡ offsets_in n k) × (result ≤ offsets) }
{
    n.saturating_sub(OFFSETS * k).min(OFFSETS)
}

// Whether the record's four numbers are a sound one's, in a group of m offsets.
pub fn shaped(r: Record, m: u32) -> bool
    requires { InEight r }
    ensures { result ≡ shaped m r }
{
    if m <= r.start + r.span {
        return false;
    }
    let w = r.word;
    if w % 2 == 1 {
        w <= STEEPEST
    } else if WIDEST < w {
        false
    } else if r.span == 0 {
        true
    } else if w <= STRIDE_1 {
        w == STRIDE_1
    } else {
        r.span % (w / 2) == 0
    }
}

// Whether a slot may stand behind those before it, which make so many levels: its record is shaped, and its place is `free` or
// a later one of the last level or the next. Places are numbered through the levels.
fn stands(s: Slot, m: u32, levels: u32, free: u32) -> bool
    requires { (s.level < 65536) × InEight s.held × InLast levels free }
    ensures { result ≡ slot_stands m levels (free_from levels free) s }
{
    free <= OFFSETS * s.level + s.held.start && s.level <= levels && shaped(s.held, m)
}

// Whether each slot may stand behind those before it, where no offset is owned: none is approximate.
fn plain_pass(b: &[u8], m: u32) -> bool
    requires { (length b.now ≡ group_length) × (used_of b.now ≤ group_limit) × (m ≤ offsets) }
    ensures { result ≡ slots_pass m 0 0 no_owners (slots_of b.now) }
{
    let end = used(b) as usize;
    let mut levels = 0;
    let mut free = 0;
    for i in 0..end {
        let s = slot_at(b, i);
        let r = s.held;
        let approximate = r.word % 2 == 1;
        if approximate {
            return false;
        }
        if !stands(s, m, levels, free) {
            return false;
        }
        levels = s.level + 1;
        free = OFFSETS * s.level + r.start + r.span + 1;
    }
    true
}

// Copies the entries of all offsets.
fn copy_entries(b: &[u8], owners: &mut [u16])
    requires { (length b.now ≡ group_length) × (length owners.old ≡ offsets) }
    ensures { owners.new ≡ entries_of b.now }
{
    for o in 0..OFFSETS as usize {
        owners[o] = octets::get_u16(b, OWNERS_AT + o * OWNER_BYTES) as u16;
    }
}

// Takes the one named from the owners of the offsets from `first` to `last`.
fn take(owners: &mut [u16], name: u16, first: usize, last: usize)
    requires { (length owners.old ≡ offsets) × (first ≤ last) × (last < offsets) }
    ensures { owners.new ≡ without name (suc (last - first)) first owners.old }
{
    for o in first..=last {
        let v = owners[o];
        owners[o] = if v == name { 0 } else { v };
    }
}

// Whether an approximate record owns its ends; if so, what it owns in its range is taken.
fn owns_ends(owners: &mut [u16], r: Record) -> bool
    requires { (length owners.old ≡ offsets) × (r.start + r.span ≤ 255) }
    ensures { (result ≡ owns_ends (approx r) owners.old r) × (result ≡ true → owners.new ≡ taken (approx r) owners.old r) }
{
    if r.word % 2 == 0 {
        return true;
    }
    let first = r.start as usize;
    let last = (r.start + r.span) as usize;
    let name = (r.start + 1) as u16;
    if owners[first] != name || owners[last] != name {
        return false;
    }
    take(owners, name, first, last);
    true
}

// Whether each slot may stand behind those before it and owns its ends; if so, the owners that no record's range has are left.
fn slots_pass(b: &[u8], owners: &mut [u16], m: u32) -> bool
    requires { (length b.now ≡ group_length) × (used_of b.now ≤ group_limit) × (length owners.old ≡ offsets) × (m ≤ offsets) }
    ensures { (result ≡ slots_pass m 0 0 owners.old (slots_of b.now)) × (result ≡ true → owners.new ≡ left_by owners.old (slots_of b.now)) }
{
    let end = used(b) as usize;
    let mut levels = 0;
    let mut free = 0;
    for i in 0..end {
        let s = slot_at(b, i);
        if !stands(s, m, levels, free) {
            return false;
        }
        let r = s.held;
        if !owns_ends(owners, r) {
            return false;
        }
        levels = s.level + 1;
        free = OFFSETS * s.level + r.start + r.span + 1;
    }
    true
}

// Whether no offset has an owner.
fn unowned(owners: &[u16]) -> bool
    requires { length owners.now ≡ offsets }
    ensures { result ≡ unowned owners.now }
{
    let mut any = 0;
    for w in owners {
        any |= *w;
    }
    any == 0
}

// Whether the bytes are a sound group's: group k of n pages.
pub fn sound(b: &[u8], n: u32, k: u32) -> bool
    requires { (length b.now ≡ group_length) × (k ≤ 4096) }
    ensures { result ≡ sound_group n k (read_group b.now) }
{
    if SLOTS < used(b) {
        return false;
    }
    let m = offsets_in(n, k);
    if flag(b) == 0 {
        return plain_pass(b, m);
    }
    let mut owners = [0u16; OFFSETS as usize];
    copy_entries(b, &mut owners);
    slots_pass(b, &mut owners, m) && unowned(&owners)
}
