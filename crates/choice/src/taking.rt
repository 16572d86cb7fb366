// Whether a collection takes its blocks: 8 and 6, then the list of the blocks.
ghost use Rattle.std.specs.Prelude.{◌≡◌, not, ◌&&◌, List, ℕ, ◌≤◌, eqb, length};
ghost use Rattle.model.specs.State.{free_blocks};
ghost use Rattle.calls.specs.Choice.{Used};
ghost use Rattle.choice.specs.Taking.{Chooses, choice, choice_of, listed};

use crate::choose::{choose, count_chosen, no_gain};
use answers::Refusal;

// Whether n pages need a free block and none exists.
fn no_block(n: usize, free: u32) -> bool
    ensures { result ≡ (not (eqb n 0) && eqb free 0) }
{
    n != 0 && free == 0
}

// Where so many blocks are free: if 8 or 6 applies, that; else the taken blocks are listed at the front of `order`. How many they are.
pub fn take_blocks(tally: &[u16], b: u32, free: u32, order: &mut [u32]) -> Result<usize, Refusal>
    requires { (length tally.now ≤ 4096) × (length tally.now ≤ length order.old) × (b ≤ 256) }
    ensures { (us : List Used) (counts : List ℕ) → Chooses tally.now b us → free ≡ length (free_blocks 0 counts)
        → (choice_of result ≡ choice us counts) × (order.new ≡ listed us counts order.old) }
{
    let t = count_chosen(tally, b);
    let c = t.blocks;
    let n = t.pages;
    if no_gain(c, n) {
        return Err(Refusal::NothingToGain);
    }
    if no_block(n, free) {
        return Err(Refusal::NoFreeBlock);
    }
    choose(tally, b, order);
    Ok(c)
}
