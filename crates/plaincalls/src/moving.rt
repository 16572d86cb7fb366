// What is moved: the entries that name a page of a taken block, in one pass. They stand in order of the logical pages.
ghost use Rattle.std.specs.Prelude.{◌≡◌, true, ℕ, ◌*◌, ◌/◌, ◌<◌, ◌≤◌, ltb, length, get_or};
ghost use Rattle.model.specs.Lists.{all, store};
ghost use Rattle.model.specs.Learning.{logicals, sources as sources_of};
ghost use Rattle.calls.specs.Choice.{blocks_of};
ghost use Rattle.calls.specs.PageMap.{clear_counts};
ghost use Rattle.plain.specs.Table.{no_page};
ghost use Rattle.plain.specs.Calls.{victims, moves};
ghost use Rattle.front.specs.Read.{numbers_of};
ghost use Rattle.plainstate.specs.Reading.{read_table};
ghost use Rattle.plainstate.specs.Shaped.{Passed};
ghost use Rattle.plaincalls.specs.Passes.{passing, is_moved, reciprocal};

use front::Numbers;
use plainstate::entries::entry;

// The taken blocks are not kept: 0 for each of them.
fn give_up(blocks: &[u32], kept: &mut [u8])
    requires { (length kept.old ≤ 4097) × (all (λ k. ltb k (length kept.old)) blocks.now ≡ true) }
    ensures { kept.new ≡ clear_counts blocks.now kept.old }
{
    for k in blocks {
        kept[*k as usize] = 0;
    }
}

// The block of page q, by a multiplication: r is the reciprocal of the number of a block's pages.
fn block_of(r: u64, q: u32) -> usize
    requires { (r ≤ 1073741825) × (q ≤ 1048576) }
    ensures { (b : ℕ) → 4 ≤ b → b ≤ 256 → r ≡ reciprocal b → result ≡ q / b }
{
    let p = u64::from(q) * r;
    (p >> 32) as usize
}

// Whether an entry names a page of a block that is not kept. The device's pages are those before `past`; an entry that names none
// is looked up as `past`, in the block behind the last, which is kept.
fn is_moved(kept: &[u8], d: Numbers, r: u64, past: u32, e: u32) -> bool
    requires { (r ≡ reciprocal d.b) × (past ≡ d.m * d.b)
        × (get_or kept.now d.m 0 ≡ 1) × ((e ≡ no_page → ⊥) → e / d.b < d.m) }
    ensures { result ≡ is_moved kept.now d.b e }
{
    let k = block_of(r, e.min(past));
    kept[k] == 0
}

// The entries that name pages of blocks that are not kept: their logical pages and these pages; how many there are. The block
// behind the last is kept.
// Kept: two slices in step: the sources are the plan, which the C interface lends as numbers; the logical pages don't leave the call.
fn gather(state: &[u8], d: Numbers, kept: &[u8], pages: &mut [u32], sources: &mut [u32]) -> usize
    requires { Passed (numbers_of d) (read_table state.now) × (get_or kept.now d.m 0 ≡ 1)
        × (length (passing (is_moved kept.now d.b) 0 (read_table state.now).entries) ≤ length pages.old)
        × (length (passing (is_moved kept.now d.b) 0 (read_table state.now).entries) ≤ length sources.old) }
    ensures count { result ≡ length (passing (is_moved kept.now d.b) 0 (read_table state.now).entries) }
    ensures logical { pages.new ≡ store pages.old 0
        (logicals (passing (is_moved kept.now d.b) 0 (read_table state.now).entries)) }
    ensures source { sources.new ≡ store sources.old 0
        (sources_of (passing (is_moved kept.now d.b) 0 (read_table state.now).entries)) }
{
    let past = d.m * d.b;
    let r = 4294967296 / u64::from(d.b) + 1;
    let mut n = 0;
    for x in 0..d.n {
        let e = entry(state, d, x);
        if is_moved(kept, d, r, past, e) {
            pages[n] = x;
            sources[n] = e;
            n += 1;
        }
    }
    n
}

// The moves of a collection that takes these blocks, as logical pages and source pages; how many there are.
pub fn moves(
    state: &[u8],
    d: Numbers,
    blocks: &[u32],
    pages: &mut [u32],
    sources: &mut [u32],
) -> usize
    requires { Passed (numbers_of d) (read_table state.now) × (blocks.now ≡ blocks_of (victims (read_table state.now)))
        × (d.b ≤ length pages.old) × (d.b ≤ length sources.old) }
    ensures count { result ≡ length (moves (read_table state.now)) }
    ensures logical { pages.new ≡ store pages.old 0 (logicals (moves (read_table state.now))) }
    ensures source { sources.new ≡ store sources.old 0 (sources_of (moves (read_table state.now))) }
{
    let mut kept = [1u8; 4097];
    give_up(blocks, &mut kept);
    gather(state, d, &kept, pages, sources)
}
