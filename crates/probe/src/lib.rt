// Inner functions for conformance tests and benchmarks, as a static library. Each checks its condition itself; where that isn't met it
// answers u64::MAX and changes nothing.
#![tactic(auto)]

pub mod groups;
pub mod passes;

ghost use Rattle.std.specs.Prelude.{◌≡◌, true, ◌+◌, ◌*◌, ◌≤◌, length};
ghost use Rattle.model.specs.Lists.{ascending, store};
ghost use Rattle.model.specs.Learning.{learn};
ghost use Rattle.record.specs.Coding.{record_width};
ghost use Rattle.learn.specs.Runs.{counts};
ghost use Rattle.probe.specs.Encoded.{encoded};
ghost use Rattle.probe.specs.Batches.{sortable, Sorts, learnable, Learns};

use sorting::order::{all_below, ascends};

// What is answered where the condition isn't met.
// Kept: the C interface: a number and no Option; each exported function ends early with it, and so reads as its condition, then its work.
pub const OUTSIDE: u64 = 18446744073709551615;

// A batch's pages, and the pages of a device with room beside them.
const BATCH: usize = 256;

const LOGICAL: u32 = 1048576;

const PAGES: u32 = 2097152;

// The greatest error bound.
const BOUND: u32 = 15;

// Whether a batch can be sorted into lists of p and s entries.
fn may_sort(batch: &[u32], p: usize, s: usize) -> bool
    ensures { result ≡ sortable batch.now p s }
{
    let n = batch.len();
    if BATCH < n {
        return false;
    }
    if p < n {
        return false;
    }
    if s < n {
        return false;
    }
    all_below(batch, LOGICAL)
}

// A batch sorted: how many pages there are; the logical pages and the index of each one's last arrival in the two lists.
#[unsafe(no_mangle)]
pub extern "C" fn probe_sort(batch: &[u32], pages: &mut [u32], sources: &mut [u32]) -> u64
    ensures { Sorts (sortable batch.now (length pages.old) (length sources.old))
        batch.now pages.old sources.old pages.new sources.new result }
{
    if !may_sort(batch, pages.len(), sources.len()) {
        return OUTSIDE;
    }
    sorting::sort::sort_batch(batch, pages, sources) as u64
}

// Whether a batch can be learned into o bytes and t numbers.
fn may_learn(written: &[u32], first: u32, g: u32, o: usize, t: usize) -> bool
    ensures { result ≡ learnable written.now first g o t }
{
    let n = written.len();
    if BATCH < n {
        return false;
    }
    if PAGES < first {
        return false;
    }
    if PAGES < first + n as u32 {
        return false;
    }
    if BOUND < g {
        return false;
    }
    if o < record::RECORD_BYTES * n {
        return false;
    }
    if t < n {
        return false;
    }
    ascends(written)
}

// The records of a sorted batch, eight bytes of each in out, how many pages each takes in taken; how many there are.
fn learn_all(written: &[u32], first: u32, g: u32, out: &mut [u8], taken: &mut [u32]) -> u64
    requires written_value { (ascending written.now ≡ true) × (length written.now ≤ 256) × (first + length written.now ≤ 2097152) × (g ≤ 15) }
    requires written_in_bounds { (record_width * length written.now ≤ length out.old) × (length written.now ≤ length taken.old) }
    ensures value { result ≡ length (learn g first written.now) }
    ensures out_after { out.new ≡ store out.old 0 (encoded (learn g first written.now)) }
    ensures taken_after { taken.new ≡ store taken.old 0 (counts (learn g first written.now)) }
{
    let mut i = 0;
    let mut n = 0;
    // Kept: no range: a run takes as many pages as it holds, so the place moves on by more than one.
    while i < written.len() {
        let r = learn::runs::run_at(written, i, first, g);
        let learned = r.learned;
        learned.encode(out, record::RECORD_BYTES * n);
        taken[n] = r.taken as u32;
        i += r.taken;
        n += 1;
    }
    n as u64
}

// The records of a sorted batch: how many there are; eight bytes of each in out, how many pages each takes in taken.
#[unsafe(no_mangle)]
pub extern "C" fn probe_learn(
    written: &[u32],
    first: u32,
    g: u32,
    out: &mut [u8],
    taken: &mut [u32],
) -> u64
    ensures { Learns (learnable written.now first g (length out.old) (length taken.old))
        written.now first g out.old taken.old out.new taken.new result }
{
    if !may_learn(written, first, g, out.len(), taken.len()) {
        return OUTSIDE;
    }
    learn_all(written, first, g, out, taken)
}
