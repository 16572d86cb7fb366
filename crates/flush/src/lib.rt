// Flush: a batch goes to the lowest-numbered free block.
#![tactic(auto)]

ghost use Rattle.std.specs.Prelude.{◌≡◌, [], ◌<◌};
ghost use Rattle.calls.specs.Flush.{flush_checks};
ghost use Rattle.calls.specs.History.{flush_call, lend};
ghost use Rattle.front.specs.Read.{numbers_of};
ghost use Rattle.answers.specs.Answers.{flush_answer};
ghost use Rattle.answers.specs.Opening.{verdict, verdict_of};
ghost use Rattle.state.specs.Reading.{read_state};
ghost use Rattle.state.specs.Ran.{Ran};
ghost use Rattle.flush.specs.Written.{Admitted, Written, BatchWritten};

use answers::{Flushed, Refusal};
use front::Numbers;
use front::counts::{free_count, lowest_free};
use sorting::order::{all_below, ascends, wrong_size};
use sorting::sort::{number, sort_any};
use state::groups::sound;
use state::marks::unmark_all;
use state::opening::open_with_spare;
use writing::block::write_block;

// The device numbers where the flush is not refused, else its refusal: 1, 2, 3, 5, 4, 6, the first that applies.
fn check(state: &[u8], spare: &[u32], batch: &[u32], plan: &[u32]) -> Result<Numbers, Refusal>
    ensures { verdict_of result ≡ verdict (flush_checks batch.now
        (lend (read_state state.now) spare.now plan.now [])) (read_state state.now).device }
{
    let d = open_with_spare(state, spare)?;
    if plan.len() != d.b as usize {
        return Err(Refusal::BadLength);
    }
    if !sound(state, d) {
        return Err(Refusal::NotSound);
    }
    if wrong_size(batch, d.b) {
        return Err(Refusal::BadBatch);
    }
    if !all_below(batch, d.n) {
        return Err(Refusal::OutOfRange);
    }
    let few = free_count(state, d) < 2;
    if few {
        return Err(Refusal::NoFreeBlock);
    }
    Ok(d)
}

// Block k takes the batch, sorted; how many pages it takes. The plan gets the sources.
fn write_sorted(
    state: &mut [u8],
    spare: &mut [u32],
    plan: &mut [u32],
    d: Numbers,
    k: u32,
    batch: &[u32],
) -> u32
    requires { Admitted (numbers_of d) (read_state state.old) spare.old batch.now plan.old × (k < d.m) }
    ensures { Written (numbers_of d) batch.now k result (read_state state.old) (read_state state.new)
        spare.old spare.new plan.old plan.new }
{
    let mut pages = [0u32; 256];
    let n = sort_any(batch, &mut pages, plan);
    write_block(state, spare, d, k, &pages[..n]);
    n as u32
}

// Block k takes the batch, whose logical pages are discarded no more; how many pages it takes. One that ascends is not copied.
fn write_batch(
    state: &mut [u8],
    spare: &mut [u32],
    plan: &mut [u32],
    d: Numbers,
    k: u32,
    batch: &[u32],
) -> u32
    requires { Admitted (numbers_of d) (read_state state.old) spare.old batch.now plan.old × (k < d.m) }
    ensures { BatchWritten (numbers_of d) batch.now k result (read_state state.old) (read_state state.new)
        spare.old spare.new plan.old plan.new }
{
    unmark_all(state, d, batch);
    if ascends(batch) {
        number(batch, plan);
        write_block(state, spare, d, k, batch);
        batch.len() as u32
    } else {
        write_sorted(state, spare, plan, d, k, batch)
    }
}

// Document 01's flush.
pub fn flush(
    state: &mut [u8],
    spare: &mut [u32],
    batch: &[u32],
    plan: &mut [u32],
) -> Result<Flushed, Refusal>
    ensures { Ran (flush_call batch.now plan.old) state.old spare.old (flush_answer result)
        (record { state = state.new; spare = spare.new; plan = plan.new; erased = []; out = [] }) }
{
    let d = check(state, spare, batch, plan)?;
    let k = lowest_free(state, d);
    let count = write_batch(state, spare, plan, d, k, batch);
    Ok(Flushed {
        first: k * d.b,
        count,
    })
}
