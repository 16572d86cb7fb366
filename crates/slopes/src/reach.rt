// How far the slopes go from a place on: the longest approximate run. Only slopes that may go farther than the longest so far are followed.
ghost use Rattle.std.specs.Prelude.{◌≡◌, true, false, ℕ, ◌+◌, ◌-◌, ◌<◌, ◌≤◌, max};
ghost use Rattle.slopes.specs.Slopes.{Windows, some_of, takes, longest_of};

use crate::windows::{Intercepts, LAST_BEGIN, STEP, Sought};

// The last slope that is needed: 256 predicts as 255 does, at every offset.
const LAST_SLOPE: u32 = 255;

// Slopes from the first to the last.
#[derive(Clone, Copy)]
pub(crate) struct Slopes {
    pub first: u32,
    pub last: u32,
}

// The slopes that may take the page at place q: from the first page to it a prediction rises by as much as the slope does, rounded up or
// down.
pub(crate) fn slopes_to(s: &Sought, q: usize) -> Slopes
    requires { (s.now.place < q) × (q < s.now.end) }
    ensures { (result.last ≤ 255)
        × ((a : ℕ) → a ≤ 255 → takes s.now.g s.now.written.now a s.now.place (q - s.now.place) ≡ true
        → (result.first ≤ a) × (a ≤ result.last)) }
{
    let i = s.place;
    let d = s.written[q] - s.written[i];
    let least = s.lowest(q as u32);
    let from = s.highest(i as u32);
    let most = s.highest(q as u32);
    let down = s.lowest(i as u32);
    let last = (((most - down + 1) * 256 - 1) / d).min(LAST_SLOPE);
    let first = if least <= from {
        0
    } else {
        (least - from - 1) * 256 / d + 1
    };
    Slopes { first, last }
}

// The place behind the last page that one of 32 slopes from a on takes, where one takes all pages before place `from`, and none the one
// at place e.
fn within_line(s: &Sought, a: u32, from: usize, e: usize, suiting: &mut Intercepts) -> usize
    requires { (a ≤ 224) × (s.now.place < from) × (from ≤ e) × (e < s.now.end)
        × Windows s.now.g s.now.written.now a s.now.place (from - 1 - s.now.place) suiting.old.low suiting.old.high
        × (some_of (λ k. takes s.now.g s.now.written.now (a + k) s.now.place (from - 1 - s.now.place)) 32 ≡ true)
        × (some_of (λ k. takes s.now.g s.now.written.now (a + k) s.now.place (e - s.now.place)) 32 ≡ false) }
    ensures { result ≡ s.now.place + longest_of s.now.g s.now.written.now s.now.place a 31 }
{
    for q in from..e {
        suiting.narrow_by(s, q, a);
        if !suiting.some_left() {
            return q;
        }
    }
    e
}

// The place behind the last page that one of 32 slopes from a on takes. They are followed from line to line.
fn farthest(s: &Sought, a: u32) -> usize
    requires { a ≤ 224 }
    ensures { result ≡ s.now.place + longest_of s.now.g s.now.written.now s.now.place a 31 }
{
    let mut suiting = Intercepts::new(s, a);
    let mut q = s.place + 1;
    // Kept: no range: a turn goes on by one page or to behind a line, whose end line_end tells.
    while q < s.end {
        let e = s.line_end(q, s.end);
        if q == e {
            suiting.narrow_by(s, q, a);
            if !suiting.some_left() {
                return q;
            }
            q += 1;
            continue;
        }
        let mut next = suiting;
        next.narrow_by(s, e, a);
        if !next.some_left() {
            return within_line(s, a, q, e, &mut suiting);
        }
        suiting = next;
        q = e + 1;
    }
    q
}

// So many pages ahead of the accurate run's end a guess looks.
const AHEAD: usize = 16;
// Half of the slopes that are looked at at once.
const HALF: u32 = 16;

// The first of 32 slopes to begin with: around the middle of those that may take a page some way ahead, and that may take the one behind
// n pages.
fn guess(s: &Sought, n: usize, w: Slopes) -> u32
    requires { (1 ≤ n) × (s.now.place + n < s.now.end) }
    ensures { result ≤ 224 }
{
    let q = (s.place + n + AHEAD).min(s.end - 1);
    let t = slopes_to(s, q);
    let middle = (t.first.min(256) + t.last) / 2;
    let m = middle.max(w.first).min(w.last);
    m.saturating_sub(HALF).min(LAST_BEGIN)
}

// The first slope from a on that isn't one of the 32 from `done` on.
fn undone(a: u32, done: u32) -> u32
    requires { done ≤ 224 }
    ensures { (a ≤ result) × ((k : ℕ) → a ≤ k → k < result → (done ≤ k) × (k < done + 32)) }
{
    if a < done { a } else { a.max(done + STEP) }
}

// How many pages the longest of 32 slopes from a on takes, if they are more than n; otherwise n.
fn longer(s: &Sought, n: usize, a: u32) -> usize
    requires { (1 ≤ n) × (s.now.place + n < s.now.end) × (a ≤ 224) }
    ensures { result ≡ max n (longest_of s.now.g s.now.written.now s.now.place a 31) }
{
    n.max(farthest(s, a) - s.place)
}

// How many pages the longest run takes: n, or as many as a slope does if they are more. The 32 slopes from `done` on take no more, and
// those that take the page behind them are from `among`'s first to its last.
fn longest_of(s: &Sought, n: usize, among: Slopes, done: u32) -> usize
    requires { (1 ≤ n) × (s.now.place + n < s.now.end) × (done ≤ 224)
        × (longest_of s.now.g s.now.written.now s.now.place done 31 ≤ n) × (among.last ≤ 255)
        × ((a : ℕ) → a ≤ 255 → takes s.now.g s.now.written.now a s.now.place n ≡ true → (among.first ≤ a) × (a ≤ among.last)) }
    ensures { result ≡ max n (longest_of s.now.g s.now.written.now s.now.place 0 255) }
{
    let i = s.place;
    let mut size = n;
    let mut w = among;
    let mut next = undone(w.first, done);
    // Kept: no range: the slopes to look at, from next to w.last, get fewer with each longer run.
    while next <= w.last {
        let a = next.min(LAST_BEGIN);
        let m = longer(s, size, a);
        if m != size {
            size = m;
            if i + size == s.end {
                return size;
            }
            w = slopes_to(s, i + size);
        }
        next = undone((a + STEP).max(w.first), done);
    }
    size
}

// How many pages the longest run takes: n, or as many as a slope does if they are more.
pub fn longest(s: &Sought, n: usize) -> usize
    requires { (1 ≤ n) × (s.now.place + n < s.now.end) }
    ensures { result ≡ max n (longest_of s.now.g s.now.written.now s.now.place 0 255) }
{
    let i = s.place;
    let w = slopes_to(s, i + n);
    if w.last < w.first {
        return n;
    }
    let done = guess(s, n, w);
    let t = farthest(s, done) - i;
    if t <= n {
        return longest_of(s, n, w, done);
    }
    if i + t == s.end {
        return t;
    }
    let v = slopes_to(s, i + t);
    longest_of(s, t, v, done)
}
