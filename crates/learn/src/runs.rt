// The runs of a sorted batch, taken from the left, and their records.
ghost use Rattle.std.specs.Prelude.{◌≡◌, true, ℕ, ◌+◌, ◌-◌, ◌<◌, ◌≤◌, ◌%◌, ◌/◌, length};
ghost use Rattle.model.specs.Lists.{ascending, store};
ghost use Rattle.model.specs.Learning.{stride_length, learn};
ghost use Rattle.model.specs.Sound.{is_empty};
ghost use Rattle.model.specs.Demand2.{bounds_of};
ghost use Rattle.slopes.specs.Places.{page_at, ahead_of, offsets_behind};
ghost use Rattle.learn.specs.Runs.{IsRun, accurate_at, fit_record, run_at, Strides, GroupEnd, on_pages, Batch, records, counts};
ghost use Rattle.slopes.specs.Counting.{as_fit};

use record::Record;
use slopes::counting::{Fit, best};
use slopes::lines::{PLACES, find_lines};
use slopes::reach::longest;
use slopes::windows::{ADDED, Sought};

// A record, and how many pages it takes.
#[derive(Clone, Copy)]
pub struct Run {
    pub learned: Record,
    pub taken: usize,
}

// So many steps at one stride are looked at one by one.
const FEW: usize = 5;

// Whether no page of group k stands at place j.
fn ended(written: &[u32], j: usize, k: u32) -> bool
    ensures { result ≡ is_empty (ahead_of written.now k j) }
{
    written.len() <= j || written[j] / 256 != k
}

// Where the pages of the group of place i end.
fn group_end(written: &[u32], i: usize) -> usize
    requires { (ascending written.now ≡ true) × (i < length written.now) }
    ensures { GroupEnd written.now i result }
{
    let k = written[i] / 256;
    // The last page tells whether all are of the group.
    if written[written.len() - 1] / 256 == k {
        return written.len();
    }
    i + written[i..].partition_point(|x| *x / 256 == k)
}

// Whether sixteen pages go on from place j at stride d: compared at once.
fn steps(written: &[u32], j: usize, d: u32) -> bool
    requires { (ascending written.now ≡ true) × (j + 16 < length written.now) }
    ensures { result ≡ true → Strides written.now d j (j + 16) }
{
    let mut so = true;
    for l in 0..16 {
        so &= written[j + l + 1] - written[j + l] == d;
    }
    so
}

// A place up to which the pages go on from a place at stride d, in group k.
fn stride_on(written: &[u32], from: usize, d: u32, k: u32) -> usize
    requires { (ascending written.now ≡ true) × (from < length written.now) × (page_at written.now from / 256 ≡ k) }
    ensures { (from ≤ result) × (result < length written.now) × (page_at written.now result / 256 ≡ k) × Strides written.now d from result }
{
    let mut j = from;
    // Kept: no range: it goes on for as long as the next sixteen do.
    while !ended(written, j + 16, k) && steps(written, j, d) {
        j += 16;
    }
    j
}

// The last place of the pages that go on from place i at stride d, in its group. Behind a few they are compared sixteen at once.
fn stride_end(written: &[u32], i: usize, d: u32) -> usize
    requires { (i < length written.now) × (ascending written.now ≡ true) }
    ensures { (result ≡ i + stride_length d (page_at written.now i % 256) (offsets_behind written.now i)) × (result < length written.now) }
{
    let k = written[i] / 256;
    let mut j = i;
    // Kept: no range: behind a few pages stride_on tells where to go on.
    while !ended(written, j + 1, k) && written[j + 1] - written[j] == d {
        j += 1;
        if j == i + FEW {
            j = stride_on(written, j, d, k);
        }
    }
    j
}

// The accurate run from place i on; one page alone is a single.
fn accurate(written: &[u32], i: usize, first: u32) -> Run
    requires { (ascending written.now ≡ true) × (i < length written.now) × (first + length written.now ≤ 2097152) }
    ensures by_index { (g : ℕ) → IsRun result (accurate_at (bounds_of g first written.now) written.now i) }
    ensures le_taken { (1 ≤ result.taken) × (i + result.taken ≤ length written.now) }
{
    let x = written[i];
    let start = x % 256;
    let p = first + i as u32;
    if ended(written, i + 1, x / 256) {
        return Run {
            learned: Record {
                start,
                span: 0,
                word: 0,
                intercept: p as i32,
            },
            taken: 1,
        };
    }
    let d = written[i + 1] - x;
    let e = stride_end(written, i + 1, d);
    Run {
        learned: Record {
            start,
            span: written[e] - x,
            word: 2 * d,
            intercept: p as i32 - ((start + (d - 1)) / d) as i32,
        },
        taken: e - i + 1,
    }
}

// The approximate run of a fit from place i on.
fn approximate(written: &[u32], i: usize, first: u32, f: Fit) -> Run
    requires { (i + f.size ≤ length written.now) × (1 ≤ f.size) × (page_at written.now i % 256 ≤ page_at written.now (i + f.size - 1) % 256) × (f.slope ≤ 256) × (first + f.intercept < 2147483648) }
    ensures { (result.learned ≡ fit_record written.now i (on_pages first (as_fit f))) × (result.taken ≡ f.size) }
{
    let start = written[i] % 256;
    Run {
        learned: Record {
            start,
            span: written[i + f.size - 1] % 256 - start,
            word: 2 * f.slope + 1,
            intercept: (first + f.intercept) as i32 - ADDED as i32,
        },
        taken: f.size,
    }
}

// The run that is sought, where the accurate one ends before the group: a longer one, or that.
fn longer(s: &Sought, first: u32, r: Run) -> Run
    requires { IsRun r (accurate_at (bounds_of s.now.g first s.now.written.now) s.now.written.now s.now.place)
        × (s.now.place + r.taken < s.now.end) × (1 ≤ s.now.g) × (first + length s.now.written.now ≤ 2097152) }
    ensures run { IsRun result (run_at (bounds_of s.now.g first s.now.written.now) s.now.written.now s.now.place) }
    ensures le_taken { (1 ≤ result.taken) × (s.now.place + result.taken ≤ s.now.end) }
{
    let i = s.place;
    let n = r.taken;
    let size = longest(s, n);
    if size == n {
        r
    } else {
        approximate(s.written, i, first, best(s, size))
    }
}

// The run at place i of a sorted batch that is written from page `first` on.
pub fn run_at(written: &[u32], i: usize, first: u32, g: u32) -> Run
    requires { Batch written.now first g × (i < length written.now) }
    ensures { IsRun result (run_at (bounds_of g first written.now) written.now i) }
{
    let r = accurate(written, i, first);
    if g == 0 || ended(written, i + r.taken, written[i] / 256) {
        return r;
    }
    let end = group_end(written, i);
    let mut ends = [0u8; PLACES];
    find_lines(written, i, end, &mut ends);
    let s = Sought {
        written,
        ends: &ends,
        place: i,
        end,
        g,
        last: written.len() as u32 - 1,
    };
    longer(&s, first, r)
}

// The runs of a sorted batch that is written from page `first` on: how many, their records, and how many of the batch's pages
// each takes.
pub fn learn(written: &[u32], first: u32, g: u32, out: &mut [Record], taken: &mut [u32]) -> usize
    requires { Batch written.now first g × (length written.now ≤ length out.old) × (length written.now ≤ length taken.old) }
    ensures { (result ≡ length (learn g first written.now))
        × (out.new ≡ store out.old 0 (records (learn g first written.now)))
        × (taken.new ≡ store taken.old 0 (counts (learn g first written.now))) }
{
    let mut i = 0;
    let mut n = 0;
    // Kept: no range: a turn goes on by as many pages as the run takes.
    while i < written.len() {
        let r = run_at(written, i, first, g);
        out[n] = r.learned;
        taken[n] = r.taken as u32;
        i += r.taken;
        n += 1;
    }
    n
}
