// What is moved: the valid pages of the taken blocks, sorted by logical page.
ghost use Rattle.std.specs.Prelude.{◌≡◌, true, map, ◌+◌, ◌<◌, ◌≤◌, ltb, length};
ghost use Rattle.model.specs.Lists.{all, store};
ghost use Rattle.model.specs.Spare.{middle};
ghost use Rattle.model.specs.Learning.{logicals, sources as sources_of};
ghost use Rattle.calls.specs.Choice.{pages_of, blocks_of};
ghost use Rattle.calls.specs.Collection.{used_block, victims, moves};
ghost use Rattle.front.specs.Read.{numbers_of};
ghost use Rattle.state.specs.Reading.{read_state};
ghost use Rattle.state.specs.Shaped.{Passed};

use crate::validity::valid;
use front::Numbers;
use sorting::sort::sort_writes;

// Block k's valid pages and their logical pages are added behind the first n; how many there are then.
fn gather_block(
    state: &[u8],
    spare: &[u32],
    d: Numbers,
    k: u32,
    pages: &mut [u32],
    sources: &mut [u32],
    n: usize,
) -> usize
    requires { Passed (numbers_of d) (read_state state.now) spare.now × (k < d.m)
        × (n + length (used_block (read_state state.now) spare.now k).pages ≤ length pages.old)
        × (n + length (used_block (read_state state.now) spare.now k).pages ≤ length sources.old) }
    ensures count { result ≡ n + length (used_block (read_state state.now) spare.now k).pages }
    ensures logical { pages.new ≡ store pages.old n
        (map (middle (numbers_of d) spare.now) (used_block (read_state state.now) spare.now k).pages) }
    ensures source { sources.new ≡ store sources.old n (used_block (read_state state.now) spare.now k).pages }
{
    let a = k * d.b;
    let mut n = n;
    for p in a..a + d.b {
        if valid(state, spare, d, p) {
            pages[n] = spare::middle(spare, d, p);
            sources[n] = p;
            n += 1;
        }
    }
    n
}

// The valid pages of the blocks, one block's after the other's, and their logical pages; how many there are.
fn gather(
    state: &[u8],
    spare: &[u32],
    d: Numbers,
    blocks: &[u32],
    pages: &mut [u32],
    sources: &mut [u32],
) -> usize
    requires { Passed (numbers_of d) (read_state state.now) spare.now × (all (λ k. ltb k d.m) blocks.now ≡ true)
        × (length (pages_of (map (used_block (read_state state.now) spare.now) blocks.now)) ≤ length pages.old)
        × (length (pages_of (map (used_block (read_state state.now) spare.now) blocks.now)) ≤ length sources.old) }
    ensures count { result ≡ length (pages_of (map (used_block (read_state state.now) spare.now) blocks.now)) }
    ensures logical { pages.new ≡ store pages.old 0 (map (middle (numbers_of d) spare.now)
        (pages_of (map (used_block (read_state state.now) spare.now) blocks.now))) }
    ensures source { sources.new ≡ store sources.old 0
        (pages_of (map (used_block (read_state state.now) spare.now) blocks.now)) }
{
    let mut n = 0;
    for &k in blocks {
        n = gather_block(state, spare, d, k, pages, sources, n);
    }
    n
}

// The moves of a collection that takes these blocks, as logical pages and source pages; how many there are.
pub fn moves(
    state: &[u8],
    spare: &[u32],
    d: Numbers,
    blocks: &[u32],
    pages: &mut [u32],
    sources: &mut [u32],
) -> usize
    requires { Passed (numbers_of d) (read_state state.now) spare.now
        × (blocks.now ≡ blocks_of (victims (read_state state.now) spare.now))
        × (d.b ≤ length pages.old) × (d.b ≤ length sources.old) }
    ensures count { result ≡ length (moves (read_state state.now) spare.now) }
    ensures logical { pages.new ≡ store pages.old 0 (logicals (moves (read_state state.now) spare.now)) }
    ensures source { sources.new ≡ store sources.old 0 (sources_of (moves (read_state state.now) spare.now)) }
{
    let mut batch = [0u32; 256];
    let mut from = [0u32; 256];
    let n = gather(state, spare, d, blocks, &mut batch, &mut from);
    sort_writes(&batch[..n], &from[..n], pages, sources)
}
