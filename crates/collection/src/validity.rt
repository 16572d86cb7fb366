// Valid pages: which pages are, and how many each block has.
ghost use Rattle.std.specs.Prelude.{◌≡◌, ◌<◌, ◌≤◌, length};
ghost use Rattle.model.specs.Lists.{store};
ghost use Rattle.model.specs.Device.{pages};
ghost use Rattle.calls.specs.Collection.{valid, used_block};
ghost use Rattle.front.specs.Read.{numbers_of};
ghost use Rattle.state.specs.Reading.{read_state};
ghost use Rattle.state.specs.Shaped.{count_of, Passed};
ghost use Rattle.collection.specs.Tally.{tally_at, tally_of};

use answers::Looked;
use choice::choose::FREE;
use front::Numbers;
use front::counts::count;
use state::seek::seek;

// Whether page p is valid: its middle entry is below N and lookup of that gives this page.
pub fn valid(state: &[u8], spare: &[u32], d: Numbers, p: u32) -> bool
    requires { Passed (numbers_of d) (read_state state.now) spare.now × (p < pages (numbers_of d)) }
    ensures { result ≡ valid (read_state state.now) spare.now p }
{
    let x = spare::middle(spare, d, p);
    if d.n <= x {
        return false;
    }
    let Ok(looked) = seek(state, spare, d, x) else {
        return false;
    };
    let Looked::Found(f) = looked else {
        return false;
    };
    p == f.page
}

// How many valid pages block k has.
fn valid_pages(state: &[u8], spare: &[u32], d: Numbers, k: u32) -> u32
    requires { Passed (numbers_of d) (read_state state.now) spare.now × (k < d.m) }
    ensures { result ≡ length (used_block (read_state state.now) spare.now k).pages }
{
    let a = k * d.b;
    let mut n = 0;
    for p in a..a + d.b {
        n += u32::from(valid(state, spare, d, p));
    }
    n
}

// Block k's entry in the tally.
// Kept: FREE and no Option: what may not change is `tally_at`, in which a free block's entry is the number 257.
fn tally_block(state: &[u8], spare: &[u32], d: Numbers, k: u32) -> u16
    requires { Passed (numbers_of d) (read_state state.now) spare.now × (k < d.m) }
    ensures { result ≡ tally_at (read_state state.now) spare.now k (count_of (read_state state.now) k) }
{
    if count(state, d, k) == 0 {
        FREE
    } else {
        valid_pages(state, spare, d, k) as u16
    }
}

// The tally of all blocks.
pub fn tally_all(state: &[u8], spare: &[u32], d: Numbers, tally: &mut [u16])
    requires { Passed (numbers_of d) (read_state state.now) spare.now × (d.m ≤ length tally.old) }
    ensures { tally.new ≡ store tally.old 0 (tally_of (read_state state.now) spare.now) }
{
    for k in 0..d.m {
        tally[k as usize] = tally_block(state, spare, d, k);
    }
}
