// The best of the longest approximate runs: for 32 slopes at a time it is counted how many pages each intercept that suits predicts rightly.
ghost use Rattle.std.specs.Prelude.{◌≡◌, List, ℕ, ◌+◌, ◌*◌, ◌-◌, ◌<◌, ◌≤◌, length, get_or, replicate};
ghost use Rattle.slopes.specs.Slopes.{Windows, reach_of, longest_of, bettered};
ghost use Rattle.slopes.specs.Counting.{as_fit, no_fit, Stored, width_of, Widths, SmallLow, above, Rows, hits, Tallies, Choices, raised_most, raised_choice, Chosen};

use crate::reach::slopes_to;
use crate::windows::{AT_ONCE, Intercepts, LAST_BEGIN, Sought};

// A slope and an intercept, in places plus 256, how many pages they take, and how many of those they predict wrongly.
#[derive(Clone, Copy)]
pub struct Fit {
    pub slope: u32,
    pub intercept: u32,
    pub size: usize,
    pub wrong: usize,
}

// So many pages are counted at once, a row of bytes each, one for each slope.
const ROWS: usize = 8;
// Their bytes.
const ROWS_LEN: usize = 256;
// In a row behind the last page: no intercept is counted so far above the least.
const NO_COUNT: u8 = 255;
// The counts of 16 intercepts: "g 0 to 15", and none more than g above the least is right.
const COUNTS: usize = 512;
// Three times 256: added before something is taken away twice, and gone as only the byte stays.
const ROUND: u16 = 768;

// The intercepts that suit all of so many pages, for 32 slopes from a on: from line to line.
fn suit(s: &Sought, size: usize, a: u32) -> Intercepts
    requires { (1 ≤ size) × (s.now.place + size ≤ s.now.end) × (a ≤ 224) }
    ensures { Windows s.now.g s.now.written.now a s.now.place (size - 1) result.low result.high }
{
    let mut suiting = Intercepts::new(s, a);
    let end = s.place + size;
    let mut q = s.place + 1;
    // Kept: no range: each turn goes to the end of a line, which line_end tells.
    while q < end {
        let e = s.line_end(q, end);
        suiting.narrow_by(s, e, a);
        q = e + 1;
    }
    suiting
}

// How many intercepts from the least on may be right for a page: those that suit, and none of them more than g above the least.
fn width(low: u16, high: u16, g: u16) -> u8
    requires { g ≤ 15 }
    ensures { result ≡ width_of g low high }
{
    if high < low {
        0
    } else {
        ((high - low).min(g) + 1) as u8
    }
}

// So many for each slope; the most of them.
fn find_widths(suiting: &Intercepts, g: u16, widths: &mut [u8; AT_ONCE]) -> u8
    requires { (g ≤ 15) × (length widths.old ≡ 32) }
    ensures { (result ≤ 16) × Widths g suiting.now.low suiting.now.high widths.new result }
{
    let mut top = 0;
    for k in 0..AT_ONCE {
        let n = width(suiting.low[k], suiting.high[k], g);
        widths[k] = n;
        top = n.max(top);
    }
    top
}

// For each slope from a on the intercept that is right for offset o at place q, less the slope's least, in a row from `at` on.
fn right_row(rows: &mut [u8; ROWS_LEN], at: usize, a: u16, o: u16, q: u16, low: &[u16; AT_ONCE])
    requires { (length rows.old ≡ 256) × (at ≤ 224) × (a ≤ 224) × (o ≤ 255) × (q ≤ 255) × SmallLow low.now }
    ensures { Stored at (λ k. above (a + k) o q (get_or low.now k 0)) rows.old rows.new }
{
    for k in 0..AT_ONCE {
        let up = ((a + k as u16) * o + 255) / 256;
        rows[at + k] = ((q + ROUND - up - low[k]) % 256) as u8;
    }
}

// The rows of eight pages, m pages behind the first; those behind the last page are left.
fn fill_rows(
    s: &Sought,
    size: usize,
    m: usize,
    a: u32,
    low: &[u16; AT_ONCE],
    rows: &mut [u8; ROWS_LEN],
)
    requires { (m < size) × (s.now.place + size ≤ s.now.end) × (a ≤ 224) × SmallLow low.now × (length rows.old ≡ 256) }
    ensures { Rows s.now.written.now a s.now.place size low.now m rows.old rows.new }
{
    for j in 0..(size - m).min(ROWS) {
        let q = s.place + m + j;
        right_row(
            rows,
            AT_ONCE * j,
            a as u16,
            (s.written[q] % 256) as u16,
            q as u16,
            low,
        );
    }
}

// For each slope it is counted in how many of the eight rows c stands. Eight at once: the counts are loaded and stored once.
fn count_of(rows: &[u8; ROWS_LEN], c: u8, tally: &mut [u8; COUNTS], to: usize)
    requires { (length tally.old ≡ 512) × (to ≤ 480) × ((k : ℕ) → k < 32 → get_or tally.old (to + k) 0 + hits rows.now c k ≤ 255) }
    ensures { Stored to (λ k. get_or tally.old (to + k) 0 + hits rows.now c k) tally.old tally.new }
{
    for k in 0..AT_ONCE {
        let x = u8::from(rows[k] == c) + u8::from(rows[32 + k] == c);
        let y = u8::from(rows[64 + k] == c) + u8::from(rows[96 + k] == c);
        let u = u8::from(rows[128 + k] == c) + u8::from(rows[160 + k] == c);
        let v = u8::from(rows[192 + k] == c) + u8::from(rows[224 + k] == c);
        tally[to + k] += (x + y) + (u + v);
    }
}

// So for each c below `top`, 32 counts from place 32 × c on.
fn count_rows(rows: &[u8; ROWS_LEN], top: u8, tally: &mut [u8; COUNTS])
    requires { (length tally.old ≡ 512) × (top ≤ 16) × ((c k : ℕ) → c < top → k < 32 → get_or tally.old (32 * c + k) 0 + hits rows.now c k ≤ 255) }
    ensures { (length tally.new ≡ 512) × ((c k : ℕ) → c < top → k < 32
        → get_or tally.new (32 * c + k) 0 ≡ get_or tally.old (32 * c + k) 0 + hits rows.now c k) }
{
    // Counted as a usize: a u8 that tells a place, too, is widened, and the rows are then compared in eight bytes each.
    for c in 0..usize::from(top) {
        count_of(rows, c as u8, tally, AT_ONCE * c);
    }
}

// How many of the pages each of the first `top` intercepts predicts rightly, for 32 slopes from a on.
fn count(s: &Sought, size: usize, a: u32, low: &[u16; AT_ONCE], top: u8, tally: &mut [u8; COUNTS])
    requires { (size ≤ 255) × (s.now.place + size ≤ s.now.end) × (a ≤ 224) × SmallLow low.now × (top ≤ 16)
        × (tally.old ≡ replicate 512 0) }
    ensures { Tallies s.now.written.now a s.now.place size low.now top tally.new }
{
    for m in (0..size).step_by(ROWS) {
        let mut rows = [NO_COUNT; ROWS_LEN];
        fill_rows(s, size, m, a, low, &mut rows);
        count_rows(&rows, top, tally);
    }
}

// For each slope the most right predictions so far, and the first intercept with as many: c is looked at, whose counts stand from `to` on.
fn raise(
    most: &mut [u8; AT_ONCE],
    choice: &mut [u8; AT_ONCE],
    tally: &[u8; COUNTS],
    to: usize,
    widths: &[u8; AT_ONCE],
    c: u8,
)
    requires { (length most.old ≡ 32) × (length choice.old ≡ 32) × (to ≤ 480) }
    ensures { Stored 0 (raised_most to c tally.now widths.now most.old) most.old most.new
        × Stored 0 (raised_choice to c tally.now widths.now most.old choice.old) choice.old
        choice.new }
{
    for k in 0..AT_ONCE {
        let t = (c < widths[k]) & (most[k] < tally[to + k]);
        most[k] = if t { tally[to + k] } else { most[k] };
        choice[k] = if t { c } else { choice[k] };
    }
}

// So for each c below `top`.
fn choose(
    tally: &[u8; COUNTS],
    widths: &[u8; AT_ONCE],
    top: u8,
    most: &mut [u8; AT_ONCE],
    choice: &mut [u8; AT_ONCE],
)
    requires { (top ≤ 16) × ((k : ℕ) → k < 32 → get_or widths.now k 0 ≤ top) × (most.old ≡ replicate 32 0) × (choice.old ≡ replicate 32 0) }
    ensures { Choices tally.now widths.now most.new choice.new }
{
    for c in 0..usize::from(top) {
        raise(most, choice, tally, AT_ONCE * c, widths, c as u8);
    }
}

// The better of a fit and those that were chosen for 32 slopes from a on.
fn better_of(
    f: Fit,
    a: u32,
    low: &[u16; AT_ONCE],
    widths: &[u8; AT_ONCE],
    most: &[u8; AT_ONCE],
    choice: &[u8; AT_ONCE],
) -> Fit
    requires { (a ≤ 224) × SmallLow low.now × ((k : ℕ) → k < 32 → (get_or most.now k 0 ≤ f.size) × (get_or choice.now k 0 ≤ 16)) }
    ensures { (g : ℕ) (w : List ℕ) (i : ℕ)
        → ((k : ℕ) → k < 32 → Chosen g w i f.size a low.now widths.now most.now choice.now k)
        → as_fit result ≡ bettered g w i (as_fit f) a 32 }
{
    let n = f.size;
    let mut best = f;
    for k in 0..AT_ONCE {
        let wrong = n - usize::from(most[k]);
        if (widths[k] != 0) & (wrong < best.wrong) {
            best = Fit {
                slope: a + k as u32,
                intercept: u32::from(low[k]) + u32::from(choice[k]),
                size: n,
                wrong,
            };
        }
    }
    best
}

// The better of a fit and the best of 32 slopes from a on, where none takes more pages than the fit.
fn better(s: &Sought, a: u32, f: Fit) -> Fit
    requires { (a ≤ 224) × (1 ≤ f.size) × (f.size ≤ 255) × (s.now.place + f.size ≤ s.now.end)
        × ((k : ℕ) → k < 32 → (reach_of s.now.g s.now.written.now s.now.place (a + k)).size ≤ f.size) }
    ensures { as_fit result ≡ bettered s.now.g s.now.written.now s.now.place (as_fit f) a 32 }
{
    let size = f.size;
    let suiting = suit(s, size, a);
    if !suiting.some_left() {
        return f;
    }
    let mut widths = [0u8; AT_ONCE];
    let top = find_widths(&suiting, s.g as u16, &mut widths);
    let mut tally = [0u8; COUNTS];
    count(s, size, a, &suiting.low, top, &mut tally);
    let mut most = [0u8; AT_ONCE];
    let mut choice = [0u8; AT_ONCE];
    choose(&tally, &widths, top, &mut most, &mut choice);
    better_of(f, a, &suiting.low, &widths, &most, &choice)
}

// The best run, where the longest takes so many pages.
pub fn best(s: &Sought, size: usize) -> Fit
    requires { (2 ≤ size) × (size ≤ 255) × (size ≡ longest_of s.now.g s.now.written.now s.now.place 0 255) }
    ensures { as_fit result ≡ bettered s.now.g s.now.written.now s.now.place (no_fit size) 0 256 }
{
    let w = slopes_to(s, s.place + size - 1);
    let mut f = Fit {
        slope: 0,
        intercept: 0,
        size,
        wrong: size + 1,
    };
    for next in (w.first..=w.last).step_by(AT_ONCE) {
        f = better(s, next.min(LAST_BEGIN), f);
    }
    f
}
