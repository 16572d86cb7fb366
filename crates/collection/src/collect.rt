// Collection: its refusals before anything is written, then the list of the blocks that are taken, the moves and the erased blocks.
ghost use Rattle.std.specs.Prelude.{◌≡◌, List, [], ℕ, length};
ghost use Rattle.model.specs.Lists.{store};
ghost use Rattle.model.specs.Learning.{logicals, sources as sources_of};
ghost use Rattle.calls.specs.Choice.{blocks_of};
ghost use Rattle.calls.specs.Collection.{victims, moves as moves_of, admit_checks, move_all, first_moved, collect_done};
ghost use Rattle.calls.specs.History.{collect_call, lend};
ghost use Rattle.choice.specs.Taking.{choice, choice_of, listed};
ghost use Rattle.front.specs.Read.{numbers_of};
ghost use Rattle.answers.specs.Answers.{collect_answer};
ghost use Rattle.answers.specs.Opening.{verdict, verdict_of};
ghost use Rattle.state.specs.Reading.{read_state};
ghost use Rattle.state.specs.Shaped.{Passed};
ghost use Rattle.state.specs.Ran.{Ran};

use crate::erasing::erase_blocks;
use crate::moving::moves;
use crate::validity::tally_all;
use answers::{Collected, Refusal};
use choice::taking::take_blocks;
use front::Numbers;
use front::counts::{free_count, lowest_free};
use state::groups::sound;
use state::opening::open_with_spare;
use writing::block::write_block;

// The device numbers where document 01's 1, 2 and 3 don't apply, else the refusal.
fn check(state: &[u8], spare: &[u32], plan: &[u32], erased: &[u32]) -> Result<Numbers, Refusal>
    ensures { verdict_of result ≡ verdict (admit_checks (lend (read_state state.now) spare.now plan.now erased.now))
        (read_state state.now).device }
{
    let d = open_with_spare(state, spare)?;
    if plan.len() != d.b as usize {
        return Err(Refusal::BadLength);
    }
    if erased.len() != d.m as usize {
        return Err(Refusal::BadLength);
    }
    if !sound(state, d) {
        return Err(Refusal::NotSound);
    }
    Ok(d)
}

// Where 8 or 6 applies, that; else the taken blocks are listed at the front of `erased`. The tally is needed here only.
fn take(state: &[u8], spare: &[u32], d: Numbers, erased: &mut [u32]) -> Result<usize, Refusal>
    requires { Passed (numbers_of d) (read_state state.now) spare.now × (length erased.old ≡ d.m) }
    ensures { (choice_of result ≡ choice (victims (read_state state.now) spare.now) (read_state state.now).counts)
        × (erased.new ≡ listed (victims (read_state state.now) spare.now) (read_state state.now).counts
        erased.old) }
{
    let mut tally = [0u16; 4096];
    let m = d.m as usize;
    tally_all(state, spare, d, &mut tally);
    let free = free_count(state, d);
    take_blocks(&tally[..m], d.b, free, erased)
}

// The moves are written to the lowest-numbered free block, if there are any; the first page. Their sources are in the plan already.
fn write_moves(state: &mut [u8], spare: &mut [u32], d: Numbers, pages: &[u32]) -> u32
    requires passed { Passed (numbers_of d) (read_state state.old) spare.old }
    requires pages_value { pages.now ≡ logicals (moves_of (read_state state.old) spare.old) }
    ensures first { result ≡ first_moved (moves_of (read_state state.old) spare.old) (read_state state.old) }
    ensures left { (plan erased : List ℕ) → lend (read_state state.new) spare.new
        (store plan 0 (sources_of (moves_of (read_state state.old) spare.old))) erased
        ≡ move_all (moves_of (read_state state.old) spare.old) (lend (read_state state.old) spare.old plan erased) }
{
    if pages.is_empty() {
        return 0;
    }
    let k = lowest_free(state, d);
    write_block(state, spare, d, k, pages);
    k * d.b
}

// The valid pages of the taken blocks are moved, and these blocks erased.
fn carry_out(
    state: &mut [u8],
    spare: &mut [u32],
    plan: &mut [u32],
    d: Numbers,
    blocks: &[u32],
) -> Collected
    requires { Passed (numbers_of d) (read_state state.old) spare.old × (length plan.old ≡ d.b)
        × (blocks.now ≡ blocks_of (victims (read_state state.old) spare.old)) }
    ensures answer { (erased : List ℕ) → collect_answer (Ok result)
        ≡ (collect_done (lend (read_state state.old) spare.old plan.old erased)).answer }
    ensures left { (erased : List ℕ) → lend (read_state state.new) spare.new plan.new (store erased 0 blocks.now)
        ≡ (collect_done (lend (read_state state.old) spare.old plan.old erased)).after }
{
    let mut pages = [0u32; 256];
    let n = moves(state, spare, d, blocks, &mut pages, plan);
    let first = write_moves(state, spare, d, &pages[..n]);
    erase_blocks(state, spare, d, blocks);
    Collected {
        first,
        count: n as u32,
        erased: blocks.len() as u32,
    }
}

// Document 01's collection.
pub fn collect(
    state: &mut [u8],
    spare: &mut [u32],
    plan: &mut [u32],
    erased: &mut [u32],
) -> Result<Collected, Refusal>
    ensures { Ran (collect_call plan.old erased.old) state.old spare.old (collect_answer result)
        (record { state = state.new; spare = spare.new; plan = plan.new; erased = erased.new; out = [] }) }
{
    let d = check(state, spare, plan, erased)?;
    let c = take(state, spare, d, erased)?;
    Ok(carry_out(state, spare, plan, d, &erased[..c]))
}
