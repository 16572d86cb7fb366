// Writing a block, as a flush and a collection do.
ghost use Rattle.std.specs.Prelude.{◌≡◌, true, ◌+◌, ◌<◌, ◌≤◌, ltb, length};
ghost use Rattle.model.specs.Lists.{all};
ghost use Rattle.plain.specs.Table.{with_entries};
ghost use Rattle.plain.specs.Calls.{enter};
ghost use Rattle.front.specs.Read.{numbers_of};
ghost use Rattle.plainstate.specs.Reading.{read_table};
ghost use Rattle.plainstate.specs.Shaped.{Shaped};
ghost use Rattle.plaincalls.specs.Written.{block_taken};

use front::Numbers;
use plainstate::counts::set_count;
use plainstate::entries::set_entry;

// The logical pages' entries name the pages from `first` on, one after the other.
fn enter(state: &mut [u8], d: Numbers, first: u32, pages: &[u32])
    requires { Shaped (numbers_of d) (read_table state.old) × (all (λ x. ltb x d.n) pages.now ≡ true) × (first + length pages.now ≤ 1048576) }
    ensures { read_table state.new
        ≡ with_entries (enter first pages.now (read_table state.old).entries) (read_table state.old) }
{
    for (i, x) in pages.iter().enumerate() {
        set_entry(state, d, *x, first + i as u32);
    }
}

// Block k takes the logical pages from its first page on.
pub fn write_block(state: &mut [u8], d: Numbers, k: u32, pages: &[u32])
    requires { Shaped (numbers_of d) (read_table state.old) × (all (λ x. ltb x d.n) pages.now ≡ true) × (length pages.now ≤ d.b) × (k < d.m) }
    ensures { read_table state.new ≡ block_taken k pages.now (read_table state.old) }
{
    let n = pages.len() as u32;
    let first = k * d.b;
    set_count(state, d, k, n);
    enter(state, d, first, pages);
}
