// The marks of discarded logical pages: a bit for each, in bytes, lowest bit first.
ghost use Rattle.std.specs.Prelude.{◌≡◌, true, false, ℕ, ◌+◌, ◌/◌, ◌%◌, ◌≤◌, ◌<◌, ltb, length, get_or, set};
ghost use Rattle.model.specs.Lists.{all};
ghost use Rattle.model.specs.Device.{marks_count};
ghost use Rattle.model.specs.Marks.{is_marked, mark, unmark, unmark_all};
ghost use Rattle.model.specs.State.{with_marks};
ghost use Rattle.calls.specs.Flush.{clear_marks};
ghost use Rattle.front.specs.Read.{numbers_of};
ghost use Rattle.state.specs.Reading.{read_state};
ghost use Rattle.state.specs.Shaped.{Shaped};
ghost use Rattle.state.specs.Telling.{MarkedOut};

use crate::numbers::marks_place;
use front::Numbers;

// Byte k of the marks.
fn marks_byte(state: &[u8], d: Numbers, k: u32) -> u32
    requires { Shaped (numbers_of d) (read_state state.now) × (k < marks_count (numbers_of d)) }
    ensures { (result ≡ get_or (read_state state.now).marks k 0) × (result < 256) }
{
    let p = marks_place(d, k);
    octets::get_u8(state, p)
}

// Byte k of the marks becomes v.
pub fn set_marks_byte(state: &mut [u8], d: Numbers, k: u32, v: u32)
    requires { Shaped (numbers_of d) (read_state state.old) × (k < marks_count (numbers_of d)) × (v < 256) }
    ensures { read_state state.new
        ≡ with_marks (set (read_state state.old).marks k v) (read_state state.old) }
{
    let p = marks_place(d, k);
    octets::put_u8(state, p, v);
}

// Whether logical page x is marked.
pub fn is_marked(state: &[u8], d: Numbers, x: u32) -> bool
    requires { Shaped (numbers_of d) (read_state state.now) × (x < d.n) }
    ensures { result ≡ is_marked (read_state state.now).marks x }
{
    let byte = marks_byte(state, d, x / 8);
    (byte >> (x % 8)) % 2 == 1
}

// Logical page x is marked.
pub fn mark(state: &mut [u8], d: Numbers, x: u32)
    requires { Shaped (numbers_of d) (read_state state.old) × (x < d.n) }
    ensures { read_state state.new
        ≡ with_marks (mark x (read_state state.old).marks) (read_state state.old) }
{
    if is_marked(state, d, x) {
        return;
    }
    let byte = marks_byte(state, d, x / 8);
    set_marks_byte(state, d, x / 8, byte + (1 << (x % 8)));
}

// Logical page x is not marked any more. Where it wasn't, no byte is stored.
fn unmark(state: &mut [u8], d: Numbers, x: u32)
    requires { Shaped (numbers_of d) (read_state state.old) × (x < d.n) }
    ensures { read_state state.new
        ≡ with_marks (unmark x (read_state state.old).marks) (read_state state.old) }
{
    if !is_marked(state, d, x) {
        return;
    }
    let byte = marks_byte(state, d, x / 8);
    set_marks_byte(state, d, x / 8, byte - (1 << (x % 8)));
}

// Whether byte k of the marks has a mark.
fn has_marks(state: &[u8], d: Numbers, k: u32) -> bool
    requires { Shaped (numbers_of d) (read_state state.now) × (k < marks_count (numbers_of d)) }
    ensures { result ≡ false → (y : ℕ) → y / 8 ≡ k → is_marked (read_state state.now).marks y ≡ false }
{
    marks_byte(state, d, k) != 0
}

// Whether a logical page of the batch may be marked: where not, clearing their marks changes nothing. They are counted, so that
// there is no branch for each.
fn may_be_marked(state: &[u8], d: Numbers, batch: &[u32]) -> bool
    requires { Shaped (numbers_of d) (read_state state.now) × (all (λ x. ltb x d.n) batch.now ≡ true) }
    ensures { result ≡ false → unmark_all batch.now (read_state state.now).marks ≡ (read_state state.now).marks }
{
    let mut count = 0;
    for &x in batch {
        count += usize::from(has_marks(state, d, x / 8));
    }
    0 < count
}

// None of the batch's logical pages is marked any more.
pub fn unmark_all(state: &mut [u8], d: Numbers, batch: &[u32])
    requires { Shaped (numbers_of d) (read_state state.old) × (all (λ x. ltb x d.n) batch.now ≡ true) }
    ensures { read_state state.new ≡ clear_marks batch.now (read_state state.old) }
{
    if !may_be_marked(state, d, batch) {
        return;
    }
    for &x in batch {
        unmark(state, d, x);
    }
}

// Whether one of the m logical pages from x on may be marked: where not, none is. The bytes with marks are counted, so that there is
// no branch for each.
fn any_marked(state: &[u8], d: Numbers, x: u32, m: u32) -> bool
    requires { Shaped (numbers_of d) (read_state state.now) × (x + m ≤ d.n) }
    ensures { result ≡ false → (o : ℕ) → o < m → is_marked (read_state state.now).marks (x + o) ≡ false }
{
    let mut marked = 0;
    for k in x / 8..(x + m).div_ceil(8) {
        marked += usize::from(has_marks(state, d, k));
    }
    0 < marked
}

// The forecasts of the marked ones among the m logical pages from x on become 0: of a discarded page no record is looked at.
pub(crate) fn mark_out(state: &[u8], d: Numbers, x: u32, m: u32, forecasts: &mut [u32])
    requires { Shaped (numbers_of d) (read_state state.now) × (x + m ≤ d.n) × (m ≤ length forecasts.old) }
    ensures { MarkedOut (read_state state.now).marks x m forecasts.old forecasts.new }
{
    if !any_marked(state, d, x, m) {
        return;
    }
    for o in 0..m {
        let f = forecasts[o as usize];
        forecasts[o as usize] = if is_marked(state, d, x + o) { 0 } else { f };
    }
}
