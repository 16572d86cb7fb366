// Telling why: for each level from the top the record that covers a page's offset, with a reason, twelve bytes each, in a lent slice.
ghost use Rattle.std.specs.Prelude.{◌≡◌, List, true, ℕ, ◌+◌, ◌*◌, ◌<◌, ◌≤◌, eqb, length};
ghost use Rattle.model.specs.Lists.{store};
ghost use Rattle.model.specs.Device.{group_length, group_of, offset_of};
ghost use Rattle.model.specs.State.{group_at};
ghost use Rattle.model.specs.Sound.{sound_group};
ghost use Rattle.front.specs.Read.{numbers_of};
ghost use Rattle.answers.specs.Answers.{why_answer};
ghost use Rattle.record.specs.Read.{as_record, OwnedAs};
ghost use Rattle.record.specs.Coding.{InEight};
ghost use Rattle.group.specs.Layout.{offsets};
ghost use Rattle.group.specs.Reading.{read_group, SoundBytes};
ghost use Rattle.calls.specs.Why.{uncovered, reason_of, reasons_in, reasons_bytes, why_length};
ghost use Rattle.calls.specs.History.{why_call};
ghost use Rattle.state.specs.Reading.{read_state};
ghost use Rattle.state.specs.Shaped.{Shaped};
ghost use Rattle.state.specs.Ran.{listing_slices, Ran};
ghost use Rattle.lookup.specs.WhyEntries.{twelve, start_of, Stands, gap};

use answers::Refusal;
use front::Numbers;
use record::Record;
use state::groups::{group_bytes, group_sound};
use state::marks::is_marked;
use state::opening::open_state;

// The length of an entry, and of `out`, which has 512.
const ENTRY_BYTES: usize = 12;

pub const WHY: usize = 6144;

// What an entry's last four bytes are as a number: off the stride; not owned; that, with an owner given, whose start stands in the third byte;
// member.
const OFF_STRIDE: u32 = 1;

const NOT_OWNED: u32 = 2;

const OWNED_ELSE: u32 = 258;

const BYTE_3: u32 = 65536;

const MEMBER: u32 = 3;

// A record, or zeros, and the number in the four bytes behind it.
#[derive(Clone, Copy)]
pub struct Entry {
    pub held: Record,
    pub note: u32,
}

// Stores an entry in twelve bytes, as entry i.
// Kept: list's put_slot is no twin: ten bytes with a level, not twelve with a note.
fn put_entry(out: &mut [u8], i: u32, e: Entry)
    requires { (length out.old ≡ why_length) × (i < 512) × InEight e.held }
    ensures { out.new ≡ store out.old (i * 12) (twelve e) }
{
    let p = (i as usize) * ENTRY_BYTES;
    let held = e.held;
    held.encode(out, p);
    octets::put_u32(out, p + 8, e.note);
}

// The entry of a level in which no record covers the offset.
fn no_entry() -> Entry
    ensures { Stands result uncovered }
{
    Entry {
        held: Record {
            start: 0,
            span: 0,
            word: 0,
            intercept: 0,
        },
        note: 0,
    }
}

// The entry of a record that covers offset o, whose owner is w.
fn entry_for(r: Record, o: u32, w: u32) -> Entry
    requires { (o < 256) × (r.start + r.span ≤ 255) × (r.word ≡ 0 → r.span ≡ 0) × (w ≤ 256) × InEight r }
    ensures { (L : List ℕ) → OwnedAs r o (eqb w (r.start + 1)) L → Stands result (reason_of o (start_of w) (as_record r L)) }
{
    let note = if r.member(o, w == r.start + 1) {
        MEMBER
    } else if !r.is_approximate() {
        OFF_STRIDE
    } else if w == 0 {
        NOT_OWNED
    } else {
        OWNED_ELSE + BYTE_3 * (w - 1)
    };
    Entry { held: r, note }
}

// Stores an entry without a record for each level from k up to before v.
fn put_gap(out: &mut [u8], k: u32, v: u32)
    requires { (length out.old ≡ why_length) × (v ≤ 512) }
    ensures { out.new ≡ store out.old (k * 12) (reasons_bytes (gap k v)) }
{
    for i in k..v {
        put_entry(out, i, no_entry());
    }
}

// Stores the entries of a sound group's levels, down to the one that has offset o; how many there are. In a level ranges don't meet, so one
// record at most covers the offset: the entries are those of the records that do, each at its level's place, and of the levels between.
fn tell_slots(b: &[u8], o: u32, out: &mut [u8]) -> u32
    requires { (length b.now ≡ group_length) × SoundBytes b.now × (o < offsets) × (length out.old ≡ why_length) }
    ensures { (result ≡ length (reasons_in o (read_group b.now))) × (out.new ≡ store out.old 0 (reasons_bytes (reasons_in o (read_group b.now)))) }
{
    let n = group::used(b) as usize;
    let w = group::owner(b, o);
    let mut k = 0;
    for i in 0..n {
        let s = group::slot_at(b, i);
        if !s.held.covers(o) || s.level < k {
            continue;
        }
        let e = entry_for(s.held, o, w);
        put_gap(out, k, s.level);
        put_entry(out, s.level, e);
        if e.note == MEMBER {
            return s.level + 1;
        }
        k = s.level + 1;
    }
    let levels = group::levels_at(b, n);
    put_gap(out, k, levels);
    levels.max(k)
}

// Tells of a page whose group is sound; how many entries there are.
fn tell_group(state: &[u8], d: Numbers, page: u32, out: &mut [u8]) -> u32
    requires { Shaped (numbers_of d) (read_state state.now) × (page < d.n)
        × (sound_group d.n (group_of page) (group_at (read_state state.now) (group_of page)) ≡ true) × (length out.old ≡ why_length) }
    ensures { (result ≡ length (reasons_in (offset_of page) (group_at (read_state state.now) (group_of page))))
        × (out.new ≡ store out.old 0 (reasons_bytes (reasons_in (offset_of page) (group_at (read_state state.now) (group_of page))))) }
{
    tell_slots(group_bytes(state, d, page / 256), page % 256, out)
}

// Tells why a page's lookup ends where it does. It is lent no spare area: whatever that is, it stays.
pub fn why(state: &[u8], page: u32, out: &mut [u8]) -> Result<u32, Refusal>
    ensures { (spare : List ℕ) → Ran (why_call page out.old) state.now spare (why_answer result)
        (listing_slices state.now spare out.new) }
{
    let d = open_state(state)?;
    if out.len() != WHY {
        return Err(Refusal::BadLength);
    }
    if d.n <= page {
        return Err(Refusal::OutOfRange);
    }
    if !group_sound(state, d, page / 256) {
        return Err(Refusal::NotSound);
    }
    if is_marked(state, d, page) {
        return Ok(0);
    }
    Ok(tell_group(state, d, page, out))
}
