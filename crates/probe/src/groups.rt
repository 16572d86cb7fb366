// The functions on one group's bytes. Each checks its condition itself; where that isn't met it answers u64::MAX and changes nothing.
ghost use Rattle.std.specs.Prelude.{◌≡◌, true, false, ℕ, ◌+◌, ◌≤◌, ◌<◌, eqb, length, get_or};
ghost use Rattle.record.specs.Coding.{InEight};
ghost use Rattle.record.specs.Scan.{on_stride};
ghost use Rattle.group.specs.Layout.{offsets};
ghost use Rattle.group.specs.Reading.{every_from};
ghost use Rattle.group.specs.Checking.{approx, shaped};
ghost use Rattle.probe.specs.Groups.{soundness, is_sound, finding, Compacts, masked_in, Expected, tested, ends_masked, fitting, has_room, insertable, Inserts};

use crate::OUTSIDE;
use record::Record;

// The places of a search's values.
const BIT16: u64 = 65536;

const BIT40: u64 = 1099511627776;

const BIT56: u64 = 72057594037927936;

// Whether the bytes are a sound group k of n logical pages: 1 yes, 0 no.
#[unsafe(no_mangle)]
pub extern "C" fn probe_group_sound(part: &[u8], n: u32, k: u32) -> u64
    ensures { result ≡ soundness part.now n k }
{
    if part.len() != group::GROUP_BYTES || 4096 < k {
        return OUTSIDE;
    }
    u64::from(group::sound(part, n, k))
}

// Whether the bytes are a sound group 0, with all its logical pages.
fn is_sound(part: &[u8]) -> bool
    ensures { result ≡ is_sound part.now }
{
    part.len() == group::GROUP_BYTES && group::sound(part, group::OFFSETS, 0)
}

// Where offset o is found.
#[unsafe(no_mangle)]
pub extern "C" fn probe_group_find(part: &[u8], o: u32) -> u64
    ensures { result ≡ finding part.now o }
{
    if !is_sound(part) || group::OFFSETS <= o {
        return OUTSIDE;
    }
    let descent = group::find(part, o);
    // Kept: tried: `u64::from`; the proof didn't close, since the ranges of a record's fields are then lost to the sum.
    let levels = (descent.levels as u64) * BIT40;
    match descent.held {
        Some(r) => BIT56 + levels + (r.start as u64) * BIT16 + (r.word as u64),
        None => levels,
    }
}

// The group is compacted; its records left.
#[unsafe(no_mangle)]
pub extern "C" fn probe_group_compact(part: &mut [u8]) -> u64
    ensures { Compacts (is_sound part.old) part.old part.new result }
{
    if !is_sound(part) {
        return OUTSIDE;
    }
    u64::from(compaction::compact(part))
}

// The mask of an approximate record with the offsets s to e has 1 at its own.
fn expect_owned(mask: &[u8], s: usize, e: usize, expected: &mut [u8])
    requires { (length mask.now ≡ offsets) × (e < offsets) × Expected (λ o. false) expected.old }
    ensures { Expected (masked_in mask.now s e) expected.new }
{
    for o in s..e + 1 {
        expected[o] = u8::from(mask[o] != 0);
    }
}

// The mask of any other has 1 at s, s + d, .. to e.
fn expect_strided(s: usize, d: usize, e: usize, expected: &mut [u8])
    requires { (0 < d) × (d < 65536) × (e < offsets) × Expected (λ o. false) expected.old }
    ensures { Expected (on_stride s d e) expected.new }
{
    // Kept: tried and slower: a range with a step made an insertion of 256 offsets into an empty group take 1.2 times the
    // instructions.
    let mut o = s;
    while o <= e {
        expected[o] = 1;
        o += d;
    }
}

// The mask as the record says: an approximate one owns what the mask has in its range.
fn expect(r: Record, mask: &[u8], expected: &mut [u8])
    requires { (length mask.now ≡ offsets) × (shaped offsets r ≡ true) × InEight r × Expected (λ o. false) expected.old }
    ensures { (length expected.new ≡ offsets)
        × ((o : ℕ) → o < offsets → eqb (get_or mask.now o 0) (get_or expected.new o 0) ≡ tested mask.now r o) }
{
    let s = r.start as usize;
    let e = (r.start + r.span) as usize;
    let w = r.word;
    if r.is_approximate() {
        expect_owned(mask, s, e, expected);
    } else if w == 0 {
        expect_strided(s, 1, s, expected);
    } else {
        expect_strided(s, (w / 2) as usize, e, expected);
    }
}

// Whether two masks are the same. Differences are gathered, so that all are compared at once.
fn same(a: &[u8], b: &[u8]) -> bool
    requires { (length a.now ≡ offsets) × (length b.now ≡ offsets) }
    ensures { result ≡ every_from (λ o. eqb (get_or a.now o 0) (get_or b.now o 0)) offsets 0 }
{
    let mut any = 0;
    for o in 0..group::OFFSETS as usize {
        any |= u8::from(a[o] != b[o]);
    }
    any == 0
}

// Whether each byte of the mask is as the record says.
fn all_masked(r: Record, mask: &[u8]) -> bool
    requires { (length mask.now ≡ offsets) × (shaped offsets r ≡ true) × InEight r }
    ensures { result ≡ every_from (tested mask.now r) offsets 0 }
{
    let mut expected = [0u8; group::OFFSETS as usize];
    expect(r, mask, &mut expected);
    same(mask, &expected)
}

// Whether the mask has an approximate record's first and last offset.
fn ends_masked(r: Record, mask: &[u8]) -> bool
    requires { (length mask.now ≡ offsets) × (r.start + r.span ≤ 255) }
    ensures { result ≡ ends_masked (approx r) mask.now r }
{
    if r.is_approximate() {
        mask[r.start as usize] != 0 && mask[(r.start + r.span) as usize] != 0
    } else {
        true
    }
}

// Whether the record is one that a sound group may have, and the mask has its members.
fn fits(r: Record, mask: &[u8]) -> bool
    requires { (length mask.now ≡ offsets) × InEight r }
    ensures { result ≡ fitting mask.now r }
{
    group::shaped(r, group::OFFSETS) && ends_masked(r, mask) && all_masked(r, mask)
}

// Whether the bytes are a sound group that isn't full.
fn has_room(part: &[u8]) -> bool
    ensures { result ≡ has_room part.now }
{
    is_sound(part) && group::record_count(part) < group::SLOTS
}

// Whether the record in the eight bytes can be inserted.
fn may_insert(part: &[u8], eight: &[u8], mask: &[u8]) -> bool
    ensures { result ≡ insertable part.now eight.now mask.now }
{
    if !has_room(part) {
        return false;
    }
    if eight.len() != record::RECORD_BYTES {
        return false;
    }
    if mask.len() != group::OFFSETS as usize {
        return false;
    }
    let r = record::decode(eight, 0);
    fits(r, mask)
}

// It is inserted; the records after.
#[unsafe(no_mangle)]
pub extern "C" fn probe_group_insert(part: &mut [u8], eight: &[u8], mask: &[u8]) -> u64
    ensures { Inserts (insertable part.old eight.now mask.now)
        part.old eight.now mask.now part.new result }
{
    if !may_insert(part, eight, mask) {
        return OUTSIDE;
    }
    let r = record::decode(eight, 0);
    insertion::insert(part, r, mask);
    u64::from(group::record_count(part))
}
