// A lookup in a sound group: from a logical page to the page that holds it, by the records and the predicted page's entries, unless it
// is discarded.
ghost use Rattle.std.specs.Prelude.{◌≡◌, true, false, List, ℕ, ◌+◌, ◌%◌, ◌<◌, ◌≤◌, length, get_or};
ghost use Rattle.model.specs.Device.{group_of, offset_of, spare_length};
ghost use Rattle.model.specs.Record.{predict};
ghost use Rattle.model.specs.State.{group_at};
ghost use Rattle.model.specs.Sound.{sound_group};
ghost use Rattle.calls.specs.Lookup as calls;
ghost use Rattle.calls.specs.Lookup.{looked_at, descend, seek, answer_of};
ghost use Rattle.front.specs.Read.{numbers_of};
ghost use Rattle.record.specs.Read.{as_record};
ghost use Rattle.answers.specs.Answers.{lookup_answer};
ghost use Rattle.state.specs.Reading.{read_state};
ghost use Rattle.state.specs.Shaped.{Shaped};
ghost use Rattle.state.specs.Telling.{Tells, plainly};

use crate::groups::{find, foretell};
use crate::marks::{is_marked, mark_out};
use answers::{Found, Looked, Refusal};
use forecast::{LEVEL, PAGE_0};
use front::Numbers;
use record::Record;
use spare::{middle, page_named};

// What comes of a lookup whose record is r, after n levels: from the predicted page's entries alone.
fn named(spare: &[u32], d: Numbers, page: u32, r: Record, n: u32) -> Result<Looked, Refusal>
    requires { (length spare.now ≡ spare_length (numbers_of d)) × (r.word ≤ 513) }
    ensures { (L : List ℕ) → lookup_answer result ≡ answer_of (looked_at (numbers_of d) spare.now page n (predict (as_record r L) (offset_of page))) }
{
    let q = r.page(page % 256, d.m * d.b).ok_or(Refusal::NotNamed)?;
    let p = page_named(spare, d, q, page).ok_or(Refusal::NotNamed)?;
    Ok(Looked::Found(Found {
        page: p,
        predicted: q,
        levels: n,
    }))
}

// What the records say of a logical page whose group is sound.
fn descend(state: &[u8], spare: &[u32], d: Numbers, page: u32) -> Result<Looked, Refusal>
    requires { Shaped (numbers_of d) (read_state state.now) × (length spare.now ≡ spare_length (numbers_of d)) × (page < d.n)
        × (sound_group d.n (group_of page) (group_at (read_state state.now) (group_of page)) ≡ true) }
    ensures { lookup_answer result ≡ answer_of (descend (read_state state.now) spare.now page) }
{
    let found = find(state, d, page / 256, page % 256);
    match found.held {
        Some(r) => named(spare, d, page, r, found.levels),
        None => Ok(Looked::NotWritten(found.levels)),
    }
}

// The lookup itself, where its group is sound: of a discarded page no record is looked at.
pub fn seek(state: &[u8], spare: &[u32], d: Numbers, page: u32) -> Result<Looked, Refusal>
    requires { Shaped (numbers_of d) (read_state state.now) × (length spare.now ≡ spare_length (numbers_of d)) × (page < d.n)
        × (sound_group d.n (group_of page) (group_at (read_state state.now) (group_of page)) ≡ true) }
    ensures { lookup_answer result ≡ answer_of (seek (read_state state.now) spare.now page) }
{
    if is_marked(state, d, page) {
        Ok(Looked::NotWritten(0))
    } else {
        descend(state, spare, d, page)
    }
}

// The forecasts of the m logical pages from x on, the first of a sound group: 0 for a discarded one.
pub fn foretell_pages(state: &[u8], d: Numbers, x: u32, m: u32, forecasts: &mut [u32])
    requires { Shaped (numbers_of d) (read_state state.now) × (sound_group d.n (group_of x) (group_at (read_state state.now) (group_of x)) ≡ true)
        × (x % 256 ≡ 0) × (x < d.n) × (x + m ≤ d.n) × (m ≤ 256) × (length forecasts.old ≡ 256) }
    ensures { ((spare : List ℕ) (o : ℕ) → o < m
        → Tells (numbers_of d) spare (x + o) (seek (read_state state.now) spare (x + o)) (get_or forecasts.new o 0)) × (length forecasts.new ≡ 256) }
{
    foretell(state, d, x / 256, forecasts);
    mark_out(state, d, x, m, forecasts);
}

// What comes of a lookup by its forecast.
pub fn told(spare: &[u32], d: Numbers, page: u32, f: u32) -> Result<Looked, Refusal>
    requires { length spare.now ≡ spare_length (numbers_of d) }
    ensures { (a : calls.Looked) → Tells (numbers_of d) spare.now page a f → lookup_answer result ≡ answer_of a }
{
    let levels = f / LEVEL;
    let c = f % LEVEL;
    if c == 0 {
        return Ok(Looked::NotWritten(levels));
    }
    if c < PAGE_0 {
        return Err(Refusal::NotNamed);
    }
    let q = c - PAGE_0;
    if d.m * d.b <= q {
        return Err(Refusal::NotNamed);
    }
    let p = page_named(spare, d, q, page).ok_or(Refusal::NotNamed)?;
    Ok(Looked::Found(Found {
        page: p,
        predicted: q,
        levels,
    }))
}

// Whether the middle entry of the page that a forecast says, if there is such a page, names another logical page or nobody: otherwise it
// is the page that holds this one.
pub fn strays(spare: &[u32], d: Numbers, page: u32, f: u32) -> bool
    requires { length spare.now ≡ spare_length (numbers_of d) }
    ensures { result ≡ false → (a : calls.Looked) → Tells (numbers_of d) spare.now page a f → a ≡ plainly f }
{
    let pages = d.m * d.b;
    let q = (f % LEVEL + (LEVEL - PAGE_0)) % LEVEL;
    let at = if q < pages { q } else { 0 };
    (pages <= q) | (middle(spare, d, at) != page)
}
