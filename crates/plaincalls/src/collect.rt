// Collection: its refusals before anything is written, then the list of the blocks that are taken, the moves, the erased blocks.
ghost use Rattle.std.specs.Prelude.{◌≡◌, true, ltb, length};
ghost use Rattle.std.proofs.Math.Option.{none};
ghost use Rattle.model.specs.Lists.{all, store};
ghost use Rattle.model.specs.Learning.{logicals, sources as sources_of};
ghost use Rattle.calls.specs.Refusals.{first_refusal};
ghost use Rattle.calls.specs.Outcome.{collected};
ghost use Rattle.calls.specs.Choice.{blocks_of, first_of};
ghost use Rattle.plain.specs.Calls.{victims, moves as moves_of, written, cleared, collect};
ghost use Rattle.choice.specs.Taking.{choice, choice_of, listed};
ghost use Rattle.front.specs.Read.{numbers_of};
ghost use Rattle.answers.specs.Answers.{collect_answer};
ghost use Rattle.answers.specs.Opening.{verdict, verdict_of};
ghost use Rattle.plainstate.specs.Reading.{read_table};
ghost use Rattle.plainstate.specs.Shaped.{Shaped, Passed};
ghost use Rattle.plainstate.specs.Tally.{tally_of};
ghost use Rattle.plainstate.specs.Ran.{Ran};
ghost use Rattle.plaincalls.specs.Collecting.{admit_checks};

use crate::block::write_block;
use crate::moving::moves;
use answers::{Collected, Refusal};
use choice::taking::take_blocks;
use front::Numbers;
use front::counts::{free_count, lowest_free};
use plainstate::counts::set_count;
use plainstate::opening::open_table;
use plainstate::sound::sound;

// The device numbers where 1, 2 and 3 don't apply, else the refusal. Where they don't, the front of the tally is the table's.
fn check(state: &[u8], plan: &[u32], erased: &[u32], tally: &mut [u16]) -> Result<Numbers, Refusal>
    ensures verdict { verdict_of result ≡ verdict (admit_checks plan.now erased.now (read_table state.now))
        (read_table state.now).device }
    ensures tally { first_refusal (admit_checks plan.now erased.now (read_table state.now)) ≡ none
        → tally.new ≡ store tally.old 0 (tally_of (read_table state.now)) }
{
    let d = open_table(state)?;
    if plan.len() != d.b as usize {
        return Err(Refusal::BadLength);
    }
    if erased.len() != d.m as usize {
        return Err(Refusal::BadLength);
    }
    if !sound(state, d, tally) {
        return Err(Refusal::NotSound);
    }
    Ok(d)
}

// Where 8 or 6 applies, that; else the taken blocks are listed at the front of `erased`.
fn take(state: &[u8], d: Numbers, tally: &[u16], erased: &mut [u32]) -> Result<usize, Refusal>
    requires { Passed (numbers_of d) (read_table state.now) × (length erased.old ≡ d.m) × (tally.now ≡ tally_of (read_table state.now)) }
    ensures { (choice_of result ≡ choice (victims (read_table state.now)) (read_table state.now).counts)
        × (erased.new ≡ listed (victims (read_table state.now)) (read_table state.now).counts erased.old) }
{
    let free = free_count(state, d);
    take_blocks(tally, d.b, free, erased)
}

// The moves are written to the lowest-numbered free block, if there are any; the first page. The plan has their sources already.
fn write_moves(state: &mut [u8], d: Numbers, pages: &[u32]) -> u32
    requires { Passed (numbers_of d) (read_table state.old) × (pages.now ≡ logicals (moves_of (read_table state.old))) }
    ensures first { result ≡ first_of (moves_of (read_table state.old)) (read_table state.old).device
        (read_table state.old).counts }
    ensures left { read_table state.new ≡ written (moves_of (read_table state.old)) (read_table state.old) }
{
    if pages.is_empty() {
        return 0;
    }
    let k = lowest_free(state, d);
    write_block(state, d, k, pages);
    k * d.b
}

// The blocks are erased, one after the other: their counts become 0.
fn erase_blocks(state: &mut [u8], d: Numbers, blocks: &[u32])
    requires { Shaped (numbers_of d) (read_table state.old) × (all (λ k. ltb k d.m) blocks.now ≡ true) }
    ensures { read_table state.new ≡ cleared blocks.now (read_table state.old) }
{
    for k in blocks {
        set_count(state, d, *k, 0);
    }
}

// The pages of the taken blocks that entries name are moved, and these blocks erased.
fn carry_out(state: &mut [u8], plan: &mut [u32], d: Numbers, blocks: &[u32]) -> Collected
    requires { Passed (numbers_of d) (read_table state.old) × (length plan.old ≡ d.b) × (blocks.now ≡ blocks_of (victims (read_table state.old))) }
    ensures answer { collect_answer (Ok result) ≡ collected
        (first_of (moves_of (read_table state.old)) (read_table state.old).device (read_table state.old).counts)
        (length (moves_of (read_table state.old))) (length (blocks_of (victims (read_table state.old)))) }
    ensures table { read_table state.new
        ≡ cleared (blocks_of (victims (read_table state.old))) (written (moves_of (read_table state.old)) (read_table state.old)) }
    ensures plan { plan.new ≡ store plan.old 0 (sources_of (moves_of (read_table state.old))) }
{
    let mut pages = [0u32; 256];
    let n = moves(state, d, blocks, &mut pages, plan);
    let first = write_moves(state, d, &pages[..n]);
    erase_blocks(state, d, blocks);
    Collected {
        first,
        count: n as u32,
        erased: blocks.len() as u32,
    }
}

// Document 02's collection of the plain engine.
pub fn collect(state: &mut [u8], plan: &mut [u32], erased: &mut [u32]) -> Result<Collected, Refusal>
    ensures { Ran (collect plan.old erased.old) state.old (collect_answer result)
        (record { state = state.new; plan = plan.new; erased = erased.new }) }
{
    let mut tally = [0u16; 4096];
    let d = check(state, plan, erased, &mut tally)?;
    let c = take(state, d, &tally[..d.m as usize], erased)?;
    Ok(carry_out(state, plan, d, &erased[..c]))
}
