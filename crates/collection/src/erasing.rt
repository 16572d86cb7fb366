// The taken blocks are erased.
ghost use Rattle.std.specs.Prelude.{◌≡◌, true, List, ℕ, ◌<◌, ltb, length};
ghost use Rattle.model.specs.Lists.{all};
ghost use Rattle.model.specs.Device.{spare_length};
ghost use Rattle.calls.specs.Collection.{erase_block, erase_blocks};
ghost use Rattle.calls.specs.History.{lend};
ghost use Rattle.front.specs.Read.{numbers_of};
ghost use Rattle.state.specs.Reading.{read_state};
ghost use Rattle.state.specs.Shaped.{Shaped};

use front::Numbers;
use state::counts::set_count;

// Block k is erased: its entries, and its count.
fn erase_block(state: &mut [u8], spare: &mut [u32], d: Numbers, k: u32)
    requires { Shaped (numbers_of d) (read_state state.old) × (length spare.old ≡ spare_length (numbers_of d)) × (k < d.m) }
    ensures { (plan erased : List ℕ) → lend (read_state state.new) spare.new plan erased
        ≡ erase_block k (lend (read_state state.old) spare.old plan erased) }
{
    set_count(state, d, k, 0);
    spare::erase(spare, d, k);
}

// The blocks are erased, one after the other.
pub fn erase_blocks(state: &mut [u8], spare: &mut [u32], d: Numbers, blocks: &[u32])
    requires { Shaped (numbers_of d) (read_state state.old) × (length spare.old ≡ spare_length (numbers_of d))
        × (all (λ k. ltb k d.m) blocks.now ≡ true) }
    ensures { (plan erased : List ℕ) → lend (read_state state.new) spare.new plan erased
        ≡ erase_blocks blocks.now (lend (read_state state.old) spare.old plan erased) }
{
    for &k in blocks {
        erase_block(state, spare, d, k);
    }
}
