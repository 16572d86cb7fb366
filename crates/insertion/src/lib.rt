// Insertion of a record into one group's bytes: its slots, and the owners of its offsets.
#![tactic(auto)]

ghost use Rattle.std.specs.Prelude.{◌≡◌, Bool, true, List, [], ◌∷◌, ◌++◌, ℕ, ◌+◌, ◌<◌, ◌≤◌, length, get_or, take, drop};
ghost use Rattle.model.specs.Device.{group_length};
ghost use Rattle.model.specs.Lists.{all};
ghost use Rattle.model.specs.Levels.{Level, Group, fate, staying, sinking, sink, sink_all, insert};
ghost use Rattle.model.specs.Sound.{ordered};
ghost use Rattle.record.specs.Read.{as_record};
ghost use Rattle.record.specs.Scan.{masked};
ghost use Rattle.record.specs.Coding.{InEight};
ghost use Rattle.group.specs.Layout.{slots_of, owner_of};
ghost use Rattle.group.specs.Answers.{no_slot as unused};
ghost use Rattle.group.specs.Cutting.{Placed, flat};
ghost use Rattle.group.specs.Held.{slots_for, Held};
ghost use Rattle.group.specs.Reading.{read_group};
ghost use Rattle.slots.specs.View.{Room, Shows, Owned};
ghost use Rattle.insertion.specs.Slots.{no_slot, held_at, keep_at, keep_next};
ghost use Rattle.insertion.specs.InsertSlots.{given, Noted, Noting, is_loser, give_up_slots, settle};
ghost use Rattle.insertion.specs.Shown.{Shown, Tidy};
ghost use Rattle.insertion.specs.Ready.{Masks, Parted, Ready};
ghost use Rattle.insertion.specs.Searches.{Told, Border, is_early};
ghost use Rattle.insertion.specs.Turns.{Laid, Facing, MadeWay, side, outcome, ends_before, count_ahead, meets_first};

use group::Slot;
use record::Record;

// How a slot of level 0 comes out of its turn under a new record: it stays before the record's place, left its level, or stays
// behind that place.
#[derive(Clone, Copy)]
pub enum Outcome {
    Passed,
    Taken,
    Behind,
}

// Notes whoever owns one of the mask's offsets from `start` to before `end`; whether somebody does.
fn note_losers(b: &[u8], start: u32, end: u32, mask: &[u8], losers: &mut [u8]) -> bool
    requires { (length b.now ≡ group_length) × Owned b.now × (end ≤ 256) × (length mask.now ≡ 256) × (length losers.old ≡ 257)
        × ((o : ℕ) → o < 256 → owner_of b.now o ≤ 256) }
    ensures { Noting b.now mask.now losers.new start end result }
{
    let mut any = 0;
    for o in start..end {
        let w = slots::owners::owner(b, o);
        let l = if mask[o as usize] != 0 { w } else { 0 };
        losers[l as usize] = 1;
        any += l;
    }
    any != 0
}

// Whether a record is approximate and noted.
fn loses(r: Record, losers: &[u8]) -> bool
    requires { (r.start < 256) × (length losers.now ≡ 257) }
    ensures { (K : List ℕ) → result ≡ is_loser losers.now (as_record r K) }
{
    r.is_approximate() && losers[(r.start + 1) as usize] != 0
}

// Slot i, if it is a loser, gives up the offsets taken: its record shrinks, or goes. Answers the index of the slot that is next.
fn give_up(b: &mut [u8], i: u32, taken: &[u8], losers: &[u8]) -> u32
    requires { Tidy b.old × (i < length (slots_of b.old)) × (length taken.now ≡ 256) × (length losers.now ≡ 257) × Noted b.old taken.now losers.now }
    ensures { Noted b.new taken.now losers.now
        × ((l : List Placed) → Shown b.old l → Shown b.new (keep_at i (get_or l i no_slot).level (given (masked taken.now) (held_at i l)) l)
        × (result ≡ keep_next i (given (masked taken.now) (held_at i l)))) }
{
    let s = slots::get(b, i);
    let held = s.held;
    if !loses(held, losers) {
        return i + 1;
    }
    match slots::owners::left_of(b, held, taken) {
        Some(u) => {
            slots::put(b, i, Slot { held: u, ..s });
            i + 1
        }
        None => {
            slots::remove(b, i);
            i
        }
    }
}

// Every loser gives up the offsets taken. Answers how many slots are left.
fn give_up_all(b: &mut [u8], taken: &[u8], losers: &[u8]) -> u32
    requires { Tidy b.old × (length taken.now ≡ 256) × (length losers.now ≡ 257) × Noted b.old taken.now losers.now }
    ensures { (l : List Placed) → Shown b.old l → Shown b.new (give_up_slots (masked taken.now) l)
        × (result ≡ length (give_up_slots (masked taken.now) l)) }
{
    let n = slots::used(b);
    let mut i = 0;
    for _ in 0..n {
        i = give_up(b, i, taken, losers);
    }
    i
}

// How many of the first n numbers come before the place where a test that holds at first fails.
fn border<F: Fn(u32) -> bool>(test: F, n: u32) -> u32
    requires { (i : ℕ) → i < n → F.pre test i }
    ensures { (t : ℕ → Bool) → Told (F.post test) t n → Border t n result result }
{
    // Kept: no range: a binary search, either bound of which moves to the middle.
    let mut low = 0;
    let mut high = n;
    while low < high {
        let mid = low + (high - low) / 2;
        if test(mid) {
            low = mid + 1;
        } else {
            high = mid;
        }
    }
    low
}

// How many slots are of level 0.
fn level_end(b: &[u8]) -> u32
    requires { Room b.now }
    ensures { (result ≤ length (slots_of b.now)) × ((l : Level) (g : Group) → slots_of b.now ≡ slots_for (l ∷ g) → result ≡ length l) }
{
    let n = slots::used(b);
    border(|i: u32| slots::level(b, i) == 0, n)
}

// Whether slot i ends before `start`.
fn ends_before(b: &[u8], i: u32, start: u32) -> bool
    requires { Room b.now × (i < length (slots_of b.now)) }
    ensures { result ≡ is_early start (get_or (slots_of b.now) i unused) }
{
    let held = slots::get(b, i).held;
    held.start + held.span < start
}

// How many of level 0's z slots end before `start`.
fn first_met(b: &[u8], z: u32, start: u32) -> u32
    requires { Room b.now × (z ≤ length (slots_of b.now)) }
    ensures { (result ≤ z) × ((l : Level) (g : Group) → slots_of b.now ≡ slots_for (l ∷ g) → z ≡ length l → ordered 0 l ≡ true → all (ends_before start) (take result l) ≡ true) }
{
    border(|i: u32| ends_before(b, i, start), z)
}

// The first slot from slot z on that isn't of level 1 or doesn't end before `start`.
fn skip(b: &[u8], z: u32, start: u32) -> u32
    requires { Room b.now × (z ≤ length (slots_of b.now)) }
    ensures { (result ≤ length (slots_of b.now)) × (result ≡ z + count_ahead start (drop z (slots_of b.now))) }
{
    let m = slots::used(b);
    for j in z..m {
        let s = slots::get(b, j);
        let held = s.held;
        if s.level != 1 || start <= held.start + held.span {
            return j;
        }
    }
    m
}

// Whether slot p is used, is of level 1 and meets u.
fn meets_there(b: &[u8], p: u32, u: Record) -> bool
    requires { Room b.now × (p ≤ length (slots_of b.now)) }
    ensures { result ≡ meets_first u (drop p (slots_of b.now)) }
{
    if p == slots::used(b) {
        return false;
    }
    let s = slots::get(b, p);
    s.level == 1 && u.meets(s.held)
}

// Slot i of level 0's z slots goes, and u, what is left of its record, moves to level 1, or to a new level 1 of its own if it
// meets a record there.
fn lower(b: &mut [u8], i: u32, z: u32, u: Record)
    requires { Laid b.old i z × InEight u }
    ensures { (q : Laid b.old i z) (L : List ℕ) → Shows b.new (slots_for ((q.at.before ++ q.at.behind) ∷ sink (as_record u L) q.at.below)) (owner_of b.old) }
{
    let p = skip(b, z, u.start);
    if meets_there(b, p, u) {
        slots::push_down(b, z);
        slots::shift(b, i, z, Slot { level: 1, held: u });
    } else {
        slots::shift(b, i, p, Slot { level: 1, held: u });
    }
}

// On which side of r's place a record beside r stands.
fn side_of(u: Record, r: Record) -> Outcome
    ensures { (K L : List ℕ) → result ≡ side (as_record r L) (as_record u K) }
{
    if r.start < u.start {
        Outcome::Behind
    } else {
        Outcome::Passed
    }
}

// Slot i of level 0's z slots meets its fate under r, whose members the mask has.
fn turn(b: &mut [u8], i: u32, z: u32, r: Record, mask: &[u8]) -> Outcome
    requires { Facing b.old i z × (length mask.now ≡ 256) }
    ensures { (q : Facing b.old i z) (L : List ℕ) → Masks mask.now (as_record r L)
        → Shown b.new (flat ((q.at.before ++ staying (fate (as_record r L) q.at.item) q.at.behind) ∷ sink_all (sinking (fate (as_record r L) q.at.item) []) q.at.below))
        × (result ≡ outcome (as_record r L) (fate (as_record r L) q.at.item)) }
{
    let s = slots::get(b, i);
    let held = s.held;
    if !held.meets(r) {
        return side_of(held, r);
    }
    match slots::owners::left_of(b, held, mask) {
        Some(u) if u.meets(r) => {
            lower(b, i, z, u);
            Outcome::Taken
        }
        Some(u) => {
            slots::put(b, i, Slot { level: 0, held: u });
            side_of(u, r)
        }
        None => {
            slots::remove(b, i);
            Outcome::Taken
        }
    }
}

// The slots of level 0 meet their fates under r, but for those that end before it. Answers r's place.
fn victims(b: &mut [u8], r: Record, mask: &[u8]) -> u32
    requires { Parted b.old mask.now r × (length mask.now ≡ 256) }
    ensures { (q : Parted b.old mask.now r) → MadeWay (as_record r q.owned) q.top q.rest b.new result }
{
    let z = level_end(b);
    let mut i = first_met(b, z, r.start);
    for k in (1..=z - i).rev() {
        match turn(b, i, i + k, r, mask) {
            Outcome::Passed => i += 1,
            Outcome::Taken => {}
            Outcome::Behind => return i,
        }
    }
    i
}

// Every approximate record gives up the offsets of r, and levels that are left empty go.
fn clear_way(b: &mut [u8], r: Record, mask: &[u8])
    requires { Ready b.old mask.now r }
    ensures { (q : Ready b.old mask.now r) → Shown b.new (settle 0 0 (give_up_slots (masked mask.now) (flat q.group))) }
{
    if group::flag(b) == 0 {
        return;
    }
    let start = r.start;
    let mut losers = [0u8; 257];
    if !note_losers(b, start, start + r.span + 1, mask, &mut losers) {
        return;
    }
    let n = slots::used(b);
    if give_up_all(b, mask, &losers) != n {
        slots::renumber_levels(b);
    }
}

// Inserts r, whose members the mask has, at level 0 of the group.
pub fn insert(b: &mut [u8], r: Record, mask: &[u8])
    requires { Ready b.old mask.now r }
    ensures { (q : Ready b.old mask.now r) → Held b.new (insert (as_record r q.owned) q.group) × (read_group b.new ≡ insert (as_record r q.owned) (read_group b.old)) }
{
    let approximate = r.is_approximate();
    if approximate {
        clear_way(b, r, mask);
    }
    let p = victims(b, r, mask);
    slots::insert(b, p, Slot { level: 0, held: r });
    if approximate {
        slots::owners::own(b, r, mask);
    }
}
