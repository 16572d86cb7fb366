// The mapping record by value: its kind, members, predicted page, and what is left of it when members are taken.
#![tactic(auto)]

ghost use Rattle.std.specs.Prelude.{◌≡◌, Bool, true, false, ◌&&◌, List, [], ℕ, ◌+◌, ◌-◌, ◌<◌, ◌≤◌, ◌%◌, length, IfSome};
ghost use Rattle.std.proofs.Math.Option.{map};
ghost use Rattle.model.specs.Lists.{select, store};
ghost use Rattle.model.specs.Options.{as_option};
ghost use Rattle.model.specs.Record.{kind, is_approximate, covers, member, rise, predict};
ghost use Rattle.model.specs.Levels.{meets, shrunk_to_any, shrink};
ghost use Rattle.model.specs.Sound.{sound_record};
ghost use Rattle.record.specs.Read.{as_record, bare, OwnedAs, existing};
ghost use Rattle.record.specs.Scan.{masked, stays, on_stride, Tells, FirstFound, Last, Strided};
ghost use Rattle.record.specs.Coding.{record_width, record_at, eight, InEight};

// A record's bytes (docs/LAYOUT.md, 'A slot').
pub const RECORD_BYTES: usize = 8;

// Start S, span L, word and intercept I: a record that covers the offsets S to S + L.
#[derive(Clone, Copy, PartialEq, Eq)]
pub struct Record {
    pub start: u32,
    pub span: u32,
    pub word: u32,
    pub intercept: i32,
}

impl Record {
    pub fn is_approximate(self) -> bool
        ensures { (owned : List ℕ) → result ≡ is_approximate (kind (as_record self owned)) }
    {
        self.word % 2 == 1
    }

    // Whether offset o lies in the range.
    pub fn covers(self, o: u32) -> bool
        requires { (o < 256) × (self.start + self.span ≤ 255) }
        ensures { (owned : List ℕ) → result ≡ covers (as_record self owned) o }
    {
        (o + 256 - self.start) % 256 <= self.span
    }

    // Whether offset o is a member; of an approximate record, those that it owns are, which lie in its range.
    pub fn member(self, o: u32, owned: bool) -> bool
        requires { (o < 256) × (self.start + self.span ≤ 255) × (self.word ≡ 0 → self.span ≡ 0) }
        ensures { (L : List ℕ) → OwnedAs self o owned L → result ≡ member (as_record self L) o }
    {
        let x = (o + 256 - self.start) % 256;
        let w = self.word;
        if self.span < x {
            false
        } else if w % 2 == 1 {
            owned
        } else {
            w <= 2 || x % (w / 2) == 0
        }
    }

    // How far the members of a sound record that isn't approximate lie apart.
    pub fn stride(self) -> u32
        requires { (is_approximate (kind (as_record self [])) ≡ false) × (sound_record 256 0 (as_record self []) ≡ true) }
        ensures { Strided self result }
    {
        if self.word == 0 { 1 } else { self.word / 2 }
    }

    // What is added to the intercept at offset o.
    pub fn rise(self, o: u32) -> u32
        requires { (self.word ≤ 513) × (o < 256) }
        ensures { (L : List ℕ) → result ≡ rise (kind (as_record self L)) o }
    {
        let k = self.word / 2;
        if self.word == 0 {
            0
        } else if self.word % 2 == 0 {
            (o + (k - 1)) / k
        } else {
            (k * o + 255) / 256
        }
    }

    // The predicted page at offset o; below zero where no page is.
    fn predict(self, o: u32) -> i64
        requires { (self.word ≤ 513) × (o < 256) }
        ensures { (L : List ℕ) → result ≡ predict (as_record self L) o }
    {
        i64::from(self.intercept) + i64::from(self.rise(o))
    }

    // The predicted page at offset o, if it is one of a device's pages.
    pub fn page(self, o: u32, pages: u32) -> Option<u32>
        requires { (self.word ≤ 513) × (o < 256) }
        ensures { (L : List ℕ) → as_option result ≡ existing pages (predict (as_record self L) o) }
    {
        let z = self.predict(o);
        if 0 <= z && z < i64::from(pages) {
            Some(z as u32)
        } else {
            None
        }
    }

    // Whether the two ranges meet.
    pub fn meets(self, other: Record) -> bool
        ensures { (L K : List ℕ) → result ≡ meets (as_record self L) (as_record other K) }
    {
        if self.start < other.start {
            other.start - self.start <= self.span
        } else {
            self.start - other.start <= other.span
        }
    }

    // What is left of it: the first and last of the offsets s, s + d, .. to e that stay by the mask, and all between.
    pub fn shrunk(self, mask: &[u8], s: u32, d: u32, e: u32) -> Option<Record>
        requires { (length mask.now ≡ 256) × (0 < d) × (d ≤ 2147483648) × (s ≤ e) × (e ≤ 255) × ((e - s) % d ≡ 0) }
        ensures { (L : List ℕ) (t : ℕ → Bool) → ((o : ℕ) → o < 256 → t o ≡ (on_stride s d e o && stays mask.now o)) → as_option result ≡ map bare (shrunk_to_any (as_record self L) (select t 256 0)) }
    {
        let stays = |o: u32| mask[o as usize] == 0;
        let start = first(stays, s, d, e)?;
        let span = last(stays, start, d, e) - start;
        Some(Record {
            start,
            span,
            ..self
        })
    }

    // What is left of a single or accurate record without the offsets that the mask takes.
    pub fn shrink_accurate(self, taken: &[u8]) -> Option<Record>
        requires { (length taken.now ≡ 256) × (self.start + self.span ≤ 255) × (is_approximate (kind (as_record self [])) ≡ false) }
        ensures { as_option result ≡ map bare (shrink (masked taken.now) (as_record self [])) }
    {
        let s = self.start;
        if self.word == 0 {
            self.shrunk(taken, s, 1, s)
        } else {
            let d = self.word / 2;
            self.shrunk(taken, s, d, s + (self.span - self.span % d))
        }
    }

    // Stores its eight bytes at p.
    pub fn encode(self, s: &mut [u8], p: usize)
        requires { (p + record_width ≤ length s.old) × InEight self }
        ensures { s.new ≡ store s.old p (eight self) }
    {
        octets::put_u8(s, p, self.start);
        octets::put_u8(s, p + 1, self.span);
        octets::put_u16(s, p + 2, self.word);
        octets::put_i32(s, p + 4, self.intercept);
    }
}

// The record in the eight bytes at p.
pub fn decode(s: &[u8], p: usize) -> Record
    requires { p + record_width ≤ length s.now }
    ensures { (result ≡ record_at s.now p) × InEight result }
{
    let start = octets::get_u8(s, p);
    let span = octets::get_u8(s, p + 1);
    let word = octets::get_u16(s, p + 2);
    let intercept = octets::get_i32(s, p + 4);
    Record {
        start,
        span,
        word,
        intercept,
    }
}

// The first of s, s + d, .. to e that passes the test, if one does.
pub fn first<F: Fn(u32) -> bool>(test: F, s: u32, d: u32, e: u32) -> Option<u32>
    requires bounds { (0 < d) × (d ≤ 2147483648) × (e ≤ 255) }
    requires callable { (o : ℕ) → s ≤ o → o ≤ e → F.pre test o }
    ensures inside { IfSome result (λ o. (s ≤ o) × (o ≤ e)) }
    ensures found { (t : ℕ → Bool) → Tells (F.post test) t s e → FirstFound t s d e (as_option result) }
{
    // Kept: tried and slower: `for o in (s..=e).step_by(..)` has two tests a turn.
    let mut o = s;
    while o <= e {
        if test(o) {
            return Some(o);
        }
        o += d;
    }
    None
}

// The last of f, f + d, .. to e that passes the test; f does.
pub fn last<F: Fn(u32) -> bool>(test: F, f: u32, d: u32, e: u32) -> u32
    requires bounds { (0 < d) × (f ≤ e) × (e ≤ 255) × ((e - f) % d ≡ 0) }
    requires callable { (o : ℕ) → f < o → o ≤ e → F.pre test o }
    ensures { (t : ℕ → Bool) → Tells (F.post test) t f e → t f ≡ true → Last t f d e result }
{
    // Kept: tried and slower: `first` of the distance from e; a `for` down by d goes by the iterator.
    let mut o = e;
    while f < o {
        if test(o) {
            return o;
        }
        o -= d;
    }
    o
}
