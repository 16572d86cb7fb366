// What a lookup of each offset of a group comes to by the records alone, for all offsets at once. The records are put in from the last
// one up: what a newer record says of an offset takes the place of what an older one says.
#![tactic(auto)]

ghost use Rattle.std.specs.Prelude.{◌≡◌, true, ℕ, suc, ◌+◌, ◌-◌, ◌*◌, ◌/◌, ◌<◌, ◌≤◌, eqb, length};
ghost use Rattle.model.specs.Device.{group_length};
ghost use Rattle.model.specs.Record.{kind_of, rise, member};
ghost use Rattle.model.specs.Sound.{sound_record};
ghost use Rattle.record.specs.Scan.{on_stride};
ghost use Rattle.group.specs.Layout.{offsets, owner_of};
ghost use Rattle.group.specs.Reading.{read_group, SoundBytes};
ghost use Rattle.slots.specs.View.{Owned};
ghost use Rattle.slots.specs.Owners.{owning};
ghost use Rattle.forecast.specs.Forecast.{near, Entered, Forecasts};

use group::OFFSETS;
use record::Record;

// A forecast is one number: so much for each level looked at, and for the predicted page what stands for page 0, and the page. Where no
// record has the offset, it has the levels alone.
// Kept: what may not change are `Forecast.level_unit` and `Telling.Tells`, which are about that number.
pub const LEVEL: u32 = 2097152;

pub const PAGE_0: u32 = 1025;

// How far below page 0 an intercept may lie, and how far above it, so that some offset's page may exist.
const BELOW: i32 = 1024;

const ABOVE: i32 = 1048576;

// The number that an intercept stands for: one from which no page is reached stands for the nearest such.
fn near(r: Record) -> u32
    ensures { result ≡ near r.intercept }
{
    (r.intercept.clamp(-BELOW, ABOVE) + PAGE_0 as i32) as u32
}

// A record's forecasts for its members s, s + d, .. to e: they go up by one from member to member.
fn put_strided(s: u32, d: u32, e: u32, first: u32, forecasts: &mut [u32])
    requires { (length forecasts.old ≡ offsets) × (0 < d) × (d ≤ 255) × (e ≤ 255) × (first < 2147483648) }
    ensures { Entered (on_stride s d e) (λ o. first + (o - s) / d) forecasts.old forecasts.new }
{
    // Kept: tried and slower: `for o in (s..=e).step_by(d as usize)` took 1.7 times as long over a whole group, of stride 2, 3 and 8.
    let mut f = first;
    let mut o = s;
    while o <= e {
        forecasts[o as usize] = f;
        f += 1;
        o += d;
    }
}

// The forecasts for the members of the approximate record that starts at s and has the slope k; they lie between s and e.
fn put_owned(b: &[u8], s: u32, e: u32, k: u32, first: u32, forecasts: &mut [u32])
    requires { (length b.now ≡ group_length) × Owned b.now × (s ≤ e) × (e ≤ 255) × (k ≤ 256) × (length forecasts.old ≡ offsets) × (first < 2147483648)
        × ((o : ℕ) → o < offsets → owner_of b.now o ≡ suc s → (s ≤ o) × (o ≤ e)) }
    ensures { Entered (λ o. eqb (owner_of b.now o) (suc s)) (λ o. first + (k * o + 255) / 256) forecasts.old forecasts.new }
{
    let mut up = k * s + 255;
    for o in s..=e {
        let w = slots::owners::owner(b, o);
        let f = first + up / 256;
        let before = forecasts[o as usize];
        forecasts[o as usize] = if w == s + 1 { f } else { before };
        up += k;
    }
}

// The forecasts for a sound record's members, which say `first` and what the record adds at the offset.
fn put_record(b: &[u8], r: Record, first: u32, forecasts: &mut [u32])
    requires { (length b.now ≡ group_length) × (length forecasts.old ≡ offsets) × (first < 1342177280)
        × (sound_record 256 0 (owning (owner_of b.now) r) ≡ true) }
    ensures { Entered (member (owning (owner_of b.now) r)) (λ o. first + rise (kind_of r.word) o) forecasts.old forecasts.new }
{
    let s = r.start;
    let e = s + r.span;
    if r.is_approximate() {
        put_owned(b, s, e, r.word / 2, first, forecasts);
        return;
    }
    let from = first + r.rise(s);
    let d = r.stride();
    if d == 1 {
        put_strided(s, 1, e, from, forecasts);
    } else {
        put_strided(s, d, e, from, forecasts);
    }
}

// The forecasts of a sound group's offsets.
pub fn foretell(b: &[u8], forecasts: &mut [u32])
    requires { (length b.now ≡ group_length) × SoundBytes b.now × (length forecasts.old ≡ offsets) }
    ensures { Forecasts (read_group b.now) forecasts.new }
{
    let m = group::used(b) as usize;
    let n = group::levels_at(b, m);
    forecasts.fill(n * LEVEL);
    for i in (0..m).rev() {
        let s = group::slot_at(b, i);
        let r = s.held;
        let first = (s.level + 1) * LEVEL + near(r);
        put_record(b, r, first, forecasts);
    }
}
