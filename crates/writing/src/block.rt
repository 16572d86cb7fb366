// Writing a block, as a flush and a collection do.
ghost use Rattle.std.specs.Prelude.{◌≡◌, true, List, ◌<◌, ◌≤◌, ltb, length};
ghost use Rattle.model.specs.Lists.{all, ascending};
ghost use Rattle.model.specs.Device.{spare_length};
ghost use Rattle.model.specs.Spare.{program_block};
ghost use Rattle.model.specs.Learning.{Write, logicals};
ghost use Rattle.model.specs.Sound.{sound_state};
ghost use Rattle.calls.specs.Flush.{write_state};
ghost use Rattle.front.specs.Read.{numbers_of};
ghost use Rattle.state.specs.Reading.{read_state};
ghost use Rattle.state.specs.Shaped.{Shaped};

use crate::take_in_all;
use front::Numbers;
use state::counts::set_count;

// Block k takes the pages, which ascend, from its first page on: its count, the learned records, the spare entries. So the state
// is that of any writes with these logical pages; where their sources go is the caller's.
pub fn write_block(state: &mut [u8], spare: &mut [u32], d: Numbers, k: u32, pages: &[u32])
    requires shaped { Shaped (numbers_of d) (read_state state.old) × (sound_state (read_state state.old) ≡ true)
        × (length spare.old ≡ spare_length (numbers_of d)) × (k < d.m) }
    requires pages_value { (ascending pages.now ≡ true) × (all (λ x. ltb x d.n) pages.now ≡ true) × (length pages.now ≤ d.b) }
    ensures state_after { (ws : List Write) → logicals ws ≡ pages.now → read_state state.new ≡ write_state ws k (read_state state.old) }
    ensures spare_after { spare.new ≡ program_block (numbers_of d) pages.now k spare.old }
{
    let n = pages.len() as u32;
    let first = k * d.b;
    set_count(state, d, k, n);
    take_in_all(state, d, pages, first);
    let all = spare::entries_per_block(d) as usize;
    spare::program_block(spare, d, pages, k, all);
}
