// Whether the table is sound: an entry by itself, or all of it. With all of it comes the tally that a collection chooses its blocks by.
ghost use Rattle.std.specs.Prelude.{◌≡◌, [], ◌∷◌, true, ◌+◌, ◌*◌, ◌≤◌, leb, length};
ghost use Rattle.model.specs.Lists.{all, store};
ghost use Rattle.model.specs.Device.{pages};
ghost use Rattle.model.specs.Marks.{is_marked};
ghost use Rattle.plain.specs.Table.{sound_entry, sound_table};
ghost use Rattle.front.specs.Read.{numbers_of};
ghost use Rattle.plainstate.specs.Reading.{read_table};
ghost use Rattle.plainstate.specs.Shaped.{Shaped};
ghost use Rattle.plainstate.specs.Bits.{Blank, counted_from};
ghost use Rattle.plainstate.specs.Tally.{tally_of, entries_from};

use crate::bits::ones;
use crate::entries::NO_PAGE;
use crate::naming::name_all;
use choice::choose::FREE;
use front::Numbers;
use front::counts::{count, counts_sound};

// Up to so many pages have their bits in the smallest array, up to so many in the next two.
const LEAST: u32 = 4096;

const FEW: u32 = 32768;

const MORE: u32 = 262144;

// Whether an entry is sound: it names no page, or a written one.
pub fn entry_sound(state: &[u8], d: Numbers, e: u32) -> bool
    requires { Shaped (numbers_of d) (read_table state.now) }
    ensures { result ≡ sound_entry (read_table state.now) e }
{
    if e == NO_PAGE {
        return true;
    }
    if d.m * d.b <= e {
        return false;
    }
    let k = e / d.b;
    let i = e % d.b;
    i < count(state, d, k)
}

// Block k's entry becomes e, where the tally has room for it.
fn put_entry(tally: &mut [u16], k: u32, e: u16)
    ensures { tally.new ≡ store tally.old k (e ∷ []) }
{
    let i = k as usize;
    if i < tally.len() {
        tally[i] = e;
    }
}

// How many pages are marked among the written ones. The tally gets each block's number, where it has room.
fn tally_marked(state: &[u8], d: Numbers, bits: &[u8], tally: &mut [u16]) -> u32
    requires { Shaped (numbers_of d) (read_table state.now) × (pages (numbers_of d) ≤ 8 * length bits.now)
        × (all (λ c. leb c d.b) (read_table state.now).counts ≡ true) }
    ensures count { result ≡ counted_from (is_marked bits.now) (numbers_of d) 0 (read_table state.now).counts }
    ensures tally { tally.new
        ≡ store tally.old 0 (entries_from (is_marked bits.now) (numbers_of d) 0 (read_table state.now).counts) }
{
    let mut n = 0;
    for k in 0..d.m {
        let c = count(state, d, k);
        let a = k * d.b;
        let r = ones(bits, a, a + c);
        let e = if c == 0 { FREE } else { r as u16 };
        put_entry(tally, k, e);
        n += r;
    }
    n
}

// Whether the table is sound, by these bits, of which none is set. Then the tally is the table's, where it has room.
fn sound_by(state: &[u8], d: Numbers, bits: &mut [u8], tally: &mut [u16]) -> bool
    requires { Shaped (numbers_of d) (read_table state.now) × (pages (numbers_of d) + 128 ≤ 8 * length bits.old) × (length bits.old ≤ 131088) × Blank bits.old }
    ensures sound { result ≡ sound_table (read_table state.now) }
    ensures tally { result ≡ true → tally.new ≡ store tally.old 0 (tally_of (read_table state.now)) }
{
    if !counts_sound(state, d) {
        return false;
    }
    let named = name_all(state, d, bits);
    tally_marked(state, d, bits, tally) == named
}

// Whether the table is sound, with the tally, where so many bytes hold the device's pages and sixteen bytes more.
fn sound_within<const BYTES: usize>(state: &[u8], d: Numbers, tally: &mut [u16]) -> bool
    requires { Shaped (numbers_of d) (read_table state.now) × (pages (numbers_of d) + 128 ≤ 8 * BYTES) × (BYTES ≤ 131088) }
    ensures sound { result ≡ sound_table (read_table state.now) }
    ensures tally { result ≡ true → tally.new ≡ store tally.old 0 (tally_of (read_table state.now)) }
{
    let mut bits = [0u8; BYTES];
    sound_by(state, d, &mut bits, tally)
}

// Whether the table is sound. Then the tally is the table's, where it has room; a flush lends none. The bits of a small device are a
// small array: all are cleared at each call.
pub fn sound(state: &[u8], d: Numbers, tally: &mut [u16]) -> bool
    requires { Shaped (numbers_of d) (read_table state.now) }
    ensures sound { result ≡ sound_table (read_table state.now) }
    ensures tally { result ≡ true → tally.new ≡ store tally.old 0 (tally_of (read_table state.now)) }
{
    let n = d.m * d.b;
    if n <= LEAST {
        sound_within::<528>(state, d, tally)
    } else if n <= FEW {
        sound_within::<4112>(state, d, tally)
    } else if n <= MORE {
        sound_within::<32784>(state, d, tally)
    } else {
        sound_within::<131088>(state, d, tally)
    }
}
