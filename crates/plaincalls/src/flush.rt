// Flush: a batch goes to the lowest-numbered free block.
ghost use Rattle.std.specs.Prelude.{◌≡◌, [], ◌<◌};
ghost use Rattle.plain.specs.Calls.{flush, checks_of};
ghost use Rattle.front.specs.Read.{numbers_of};
ghost use Rattle.answers.specs.Answers.{flush_answer};
ghost use Rattle.answers.specs.Opening.{verdict, verdict_of};
ghost use Rattle.plainstate.specs.Reading.{read_table};
ghost use Rattle.plainstate.specs.Ran.{Ran};
ghost use Rattle.plaincalls.specs.Written.{Admitted, Written};

use crate::block::write_block;
use answers::{Flushed, Refusal};
use front::Numbers;
use front::counts::{free_count, lowest_free};
use plainstate::opening::open_table;
use plainstate::sound::sound;
use sorting::order::{all_below, ascends, wrong_size};
use sorting::sort::{number, sort_any};

// So many free blocks a flush needs: it leaves one to a collection.
const NEEDED: u32 = 2;

// The device numbers where the flush is not refused, else its refusal: 1, 2, 3, 5, 4, 6, the first that applies.
fn check(state: &[u8], batch: &[u32], plan: &[u32]) -> Result<Numbers, Refusal>
    ensures { verdict_of result ≡ verdict (checks_of (flush batch.now plan.now) (read_table state.now))
        (read_table state.now).device }
{
    let d = open_table(state)?;
    if plan.len() != d.b as usize {
        return Err(Refusal::BadLength);
    }
    if !sound(state, d, &mut []) {
        return Err(Refusal::NotSound);
    }
    if wrong_size(batch, d.b) {
        return Err(Refusal::BadBatch);
    }
    if !all_below(batch, d.n) {
        return Err(Refusal::OutOfRange);
    }
    if free_count(state, d) < NEEDED {
        return Err(Refusal::NoFreeBlock);
    }
    Ok(d)
}

// Block k takes the batch, sorted; how many pages it takes. The plan gets the sources.
fn write_sorted(state: &mut [u8], plan: &mut [u32], d: Numbers, k: u32, batch: &[u32]) -> u32
    requires { Admitted (numbers_of d) (read_table state.old) batch.now plan.old × (k < d.m) }
    ensures { Written batch.now k result (read_table state.old) (read_table state.new)
        plan.old plan.new }
{
    let mut pages = [0u32; 256];
    let n = sort_any(batch, &mut pages, plan);
    write_block(state, d, k, &pages[..n]);
    n as u32
}

// Block k takes the batch; how many pages it takes. One that ascends is not copied.
fn write_batch(state: &mut [u8], plan: &mut [u32], d: Numbers, k: u32, batch: &[u32]) -> u32
    requires { Admitted (numbers_of d) (read_table state.old) batch.now plan.old × (k < d.m) }
    ensures { Written batch.now k result (read_table state.old) (read_table state.new)
        plan.old plan.new }
{
    if ascends(batch) {
        number(batch, plan);
        write_block(state, d, k, batch);
        batch.len() as u32
    } else {
        write_sorted(state, plan, d, k, batch)
    }
}

// Document 02's flush of the plain engine.
pub fn flush(state: &mut [u8], batch: &[u32], plan: &mut [u32]) -> Result<Flushed, Refusal>
    ensures { Ran (flush batch.now plan.old) state.old (flush_answer result)
        (record { state = state.new; plan = plan.new; erased = [] }) }
{
    let d = check(state, batch, plan)?;
    let k = lowest_free(state, d);
    let count = write_batch(state, plan, d, k, batch);
    Ok(Flushed {
        first: k * d.b,
        count,
    })
}
