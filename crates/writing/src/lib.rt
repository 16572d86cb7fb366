// A block written, as a flush and a collection do: here the learned records are handed to the table, each group taking in its own.
#![tactic(auto)]

pub mod block;

ghost use Rattle.std.specs.Prelude.{◌≡◌, true, false, ℕ, ◌+◌, ◌<◌, ◌≤◌, ltb, length};
ghost use Rattle.model.specs.Lists.{all, elem, ascending};
ghost use Rattle.model.specs.Learning.{learn};
ghost use Rattle.model.specs.Levels.{take_in_all};
ghost use Rattle.model.specs.State.{with_groups};
ghost use Rattle.model.specs.Sound.{sound_groups};
ghost use Rattle.front.specs.Read.{numbers_of};
ghost use Rattle.record.specs.Scan.{masked};
ghost use Rattle.group.specs.Reading.{read_group};
ghost use Rattle.state.specs.Reading.{read_state};
ghost use Rattle.state.specs.Shaped.{Shaped};
ghost use Rattle.writing.specs.Handed.{offsets_from, run_group, runs_from, runs_end, Counted, Located, Learned};
ghost use Rattle.writing.specs.Taking.{with_room, grown, put_in, SoundBytes, Insertable, InTurn};

use front::Numbers;
use record::Record;
use state::numbers::{group_end, group_place};

// A place in what is handed over: a run, the first of its pages in the batch, and where the runs of its group end, if that is known.
#[derive(Clone, Copy)]
struct Place {
    run: usize,
    page: usize,
    end: Option<usize>,
}

// The mask, empty before, gets the offsets of n pages of the batch, from place `at` on.
fn fill_mask(mask: &mut [u8], written: &[u32], at: usize, n: usize)
    requires { (length mask.old ≡ 256) × ((o : ℕ) → o < 256 → masked mask.old o ≡ false) × (at + n ≤ length written.now) }
    ensures { (o : ℕ) → o < 256 → masked mask.new o ≡ elem o (offsets_from written.now at n) }
{
    for page in &written[at..at + n] {
        let o = *page % 256;
        mask[o as usize] = 1;
    }
}

// Kept: its answers are one list (Proof.antt): a named one would name the test's number, which the edit limit_one_more changes.
// A group makes room for n records of the batch: if its records and these are together more than 512, it is compacted.
fn make_room(b: &mut [u8], n: usize)
    requires { SoundBytes b.old × (n ≤ 256) }
    ensures { read_group b.new ≡ with_room n (read_group b.old) }
{
    let used = group::record_count(b) as usize;
    if 512 < used + n {
        compaction::compact(b);
    }
}

// A group makes room for its runs from p to the end, unless it has it: the first of them makes it for all. Then p's record r is inserted.
fn put_in(b: &mut [u8], written: &[u32], taken: &[u32], p: Place, end: usize, r: Record)
    requires { Insertable b.old written.now taken.now p end r }
    ensures { read_group b.new ≡ grown written.now taken.now p.run end r (read_group b.old) }
{
    make_room(b, end - p.run);
    let n = taken[p.run] as usize;
    let mut mask = [0u8; 256];
    fill_mask(&mut mask, written, p.page, n);
    insertion::insert(b, r, &mask);
}

// Where the runs of run p's group, k, end, of n runs in all: p knows it, or they are gone through.
fn end_of(written: &[u32], taken: &[u32], n: usize, p: Place, k: u32) -> usize
    requires { Counted written.now taken.now n × (p.run ≤ n) × Located written.now taken.now n p × (k ≡ run_group written.now taken.now p.run) }
    ensures { result ≡ runs_end written.now taken.now n p.run }
{
    if let Some(end) = p.end {
        return end;
    }
    let mut page = p.page;
    for run in p.run..n {
        if written[page] / 256 != k {
            return run;
        }
        page += taken[run] as usize;
    }
    n
}

// Run p's record r is put into the run's group. Answers the place of the next of n runs.
fn put_in_run(
    state: &mut [u8],
    d: Numbers,
    written: &[u32],
    taken: &[u32],
    n: usize,
    p: Place,
    r: Record,
) -> Place
    requires { InTurn (numbers_of d) written.now taken.now n (read_state state.old) p r }
    ensures { (result.run ≡ p.run + 1) × Located written.now taken.now n result
        × (read_state state.new ≡ put_in written.now taken.now n p.run r (read_state state.old)) }
{
    let i = p.run;
    let k = written[p.page] / 256;
    let end = end_of(written, taken, n, p, k);
    let a = group_place(d, k);
    let e = group_end(d, k);
    put_in(&mut state[a..e], written, taken, p, end, r);
    Place {
        run: i + 1,
        page: p.page + taken[i] as usize,
        end: if i + 1 < end { Some(end) } else { None },
    }
}

// Each group takes in its own of the n runs whose records are handed over.
fn take_in_runs(
    state: &mut [u8],
    d: Numbers,
    written: &[u32],
    out: &[Record],
    taken: &[u32],
    n: usize,
)
    requires { Shaped (numbers_of d) (read_state state.old) × (sound_groups d.n 0 (read_state state.old).groups ≡ true)
        × Learned d.n written.now out.now taken.now n }
    ensures { read_state state.new
        ≡ with_groups (take_in_all 0 (runs_from written.now out.now taken.now 0 n) (read_state state.old).groups)
        (read_state state.old) }
{
    let mut p = Place {
        run: 0,
        page: 0,
        end: None,
    };
    // Kept: no range: the place says which run is next, as it says the run's first page.
    while p.run < n {
        let r = out[p.run];
        p = put_in_run(state, d, written, taken, n, p, r);
    }
}

// Each group takes in its own of the records that are learned from a sorted batch, which lies on consecutive pages from `first` on.
fn take_in_all(state: &mut [u8], d: Numbers, written: &[u32], first: u32)
    requires shaped { Shaped (numbers_of d) (read_state state.old) × (sound_groups d.n 0 (read_state state.old).groups ≡ true) }
    requires written_value { (ascending written.now ≡ true) × (all (λ x. ltb x d.n) written.now ≡ true) × (length written.now ≤ 256)
        × (first + length written.now ≤ 2097152) }
    ensures { read_state state.new
        ≡ with_groups (take_in_all 0 (learn d.g first written.now) (read_state state.old).groups)
        (read_state state.old) }
{
    let mut out = [Record {
        start: 0,
        span: 0,
        word: 0,
        intercept: 0,
    }; 256];
    let mut taken = [0u32; 256];
    let n = learn::runs::learn(written, first, d.g, &mut out, &mut taken);
    take_in_runs(state, d, written, &out, &taken, n);
}
