// The functions for C and Rust: each call's answer packed into a u64, `refusal × 2^60 + …`. The rest is 0 where the call is refused.
#![tactic(auto)]

mod pack;

ghost use Rattle.std.specs.Prelude.{◌≡◌, List, [], ℕ};
ghost use Rattle.calls.specs.History.{format_call, flush_call, lookup_call, discard_call, collect_call, compact_call, agree_call, list_call, why_call};
ghost use Rattle.plain.specs.Calls as plain;
ghost use Rattle.front.specs.Reading.{numbers_at};
ghost use Rattle.state.specs.Reading.{read_state};
ghost use Rattle.state.specs.Outside.{SameOutside};
ghost use Rattle.state.specs.Ran.{device_slices, listing_slices};
ghost use Rattle.plainstate.specs.Ran.{state_slices};
ghost use Rattle.export.specs.Packing.{Packs, PlainPacks, state_len, spare_len, plain_state_len};

use collection::collect::collect;
use flush::flush;
use front::Head;
use lookup::agree::agree;
use lookup::list::list;
use lookup::lookup::lookup;
use lookup::why::why;
use pack::packed;
use plainstate::places::table_len;
use state::numbers::state_len;
use upkeep::compact::compact;
use upkeep::discard::discard;
use upkeep::format::format;

// The length of the state, in bytes; 0 where the numbers are outside their limits.
// Kept: the C interface: 0 and no Option, and a name for each of the three lengths.
#[unsafe(no_mangle)]
pub extern "C" fn hedjosur_state_len(m: u32, b: u32, n: u32, g: u32) -> u64
    ensures { result ≡ state_len (record { M = m; B = b; N = n; g = g }) }
{
    let h = Head { m, b, n, g };
    match h.checked() {
        Some(d) => state_len(d) as u64,
        None => 0,
    }
}

// The length of the spare area, in entries; likewise.
#[unsafe(no_mangle)]
pub extern "C" fn hedjosur_spare_len(m: u32, b: u32, n: u32, g: u32) -> u64
    ensures { result ≡ spare_len (record { M = m; B = b; N = n; g = g }) }
{
    let h = Head { m, b, n, g };
    match h.checked() {
        Some(d) => spare::spare_len(d) as u64,
        None => 0,
    }
}

// Document 01's format: 0.
#[unsafe(no_mangle)]
pub extern "C" fn hedjosur_format(
    m: u32,
    b: u32,
    n: u32,
    g: u32,
    state: &mut [u8],
    spare: &mut [u32],
) -> u64
    ensures { Packs (format_call (record { M = m; B = b; N = n; g = g }))
        state.old spare.old result (device_slices state.new spare.new) }
{
    packed(format(m, b, n, g, state, spare), |()| 0)
}

// Document 01's flush: count × 2^20 + first page.
#[unsafe(no_mangle)]
pub extern "C" fn hedjosur_flush(
    state: &mut [u8],
    spare: &mut [u32],
    batch: &[u32],
    plan: &mut [u32],
) -> u64
    ensures { Packs (flush_call batch.now plan.old) state.old spare.old result
        (record { state = state.new; spare = spare.new; plan = plan.new; erased = []; out = [] }) }
{
    packed(flush(state, spare, batch, plan), pack::flushed)
}

// Document 01's lookup: found × 2^56 + levels × 2^40 + predicted page × 2^20 + page.
#[unsafe(no_mangle)]
pub extern "C" fn hedjosur_lookup(state: &[u8], spare: &[u32], page: u32) -> u64
    ensures { Packs (lookup_call page) state.now spare.now result
        (device_slices state.now spare.now) }
{
    packed(lookup(state, spare, page), pack::looked)
}

// Document 02's discard: 0.
#[unsafe(no_mangle)]
pub extern "C" fn hedjosur_discard(state: &mut [u8], spare: &[u32], page: u32) -> u64
    ensures { Packs (discard_call page) state.old spare.now result
        (device_slices state.new spare.now) }
{
    packed(discard(state, spare, page), |()| 0)
}

// Document 01's collection: blocks erased × 2^40 + count × 2^20 + first page.
#[unsafe(no_mangle)]
pub extern "C" fn hedjosur_collect(
    state: &mut [u8],
    spare: &mut [u32],
    plan: &mut [u32],
    erased: &mut [u32],
) -> u64
    ensures { Packs (collect_call plan.old erased.old) state.old spare.old result
        (record { state = state.new; spare = spare.new; plan = plan.new; erased = erased.new; out = [] }) }
{
    packed(collect(state, spare, plan, erased), pack::collected)
}

// Document 01's compaction: the records left. Each byte outside the group's part stays.
#[unsafe(no_mangle)]
pub extern "C" fn hedjosur_compact(state: &mut [u8], group: u32) -> u64
    ensures packs { (spare : List ℕ) → Packs (compact_call group) state.old spare result (device_slices state.new spare) }
    ensures outside { SameOutside (numbers_at state.old) group state.old state.new }
{
    packed(compact(state, group), |n| u64::from(n))
}

// Document 01's agreement, with what document 02 also wants: 1 yes, 0 no.
#[unsafe(no_mangle)]
pub extern "C" fn hedjosur_agree(
    state_a: &[u8],
    spare_a: &[u32],
    state_b: &[u8],
    spare_b: &[u32],
) -> u64
    ensures { (state spare : List ℕ) → Packs (agree_call (read_state state_a.now) spare_a.now (read_state state_b.now) spare_b.now)
        state spare result (device_slices state spare) }
{
    packed(
        agree(state_a, spare_a, state_b, spare_b),
        |same| u64::from(same),
    )
}

// Lists a group, ten bytes a record at the start of `out`: the records.
#[unsafe(no_mangle)]
pub extern "C" fn hedjosur_list(state: &[u8], group: u32, out: &mut [u8]) -> u64
    ensures { (spare : List ℕ) → Packs (list_call group out.old) state.now spare result
        (listing_slices state.now spare out.new) }
{
    packed(list(state, group, out), |n| u64::from(n))
}

// Document 02's telling of why, twelve bytes an entry at the start of `out`: the entries.
#[unsafe(no_mangle)]
pub extern "C" fn hedjosur_why(state: &[u8], page: u32, out: &mut [u8]) -> u64
    ensures { (spare : List ℕ) → Packs (why_call page out.old) state.now spare result
        (listing_slices state.now spare out.new) }
{
    packed(why(state, page, out), |n| u64::from(n))
}

// The plain engine: the length of its state, in bytes; 0 where the numbers are outside their limits.
#[unsafe(no_mangle)]
pub extern "C" fn hedjosur_plain_state_len(m: u32, b: u32, n: u32, g: u32) -> u64
    ensures { result ≡ plain_state_len (record { M = m; B = b; N = n; g = g }) }
{
    let h = Head { m, b, n, g };
    match h.checked() {
        Some(d) => table_len(d) as u64,
        None => 0,
    }
}

// Its format: 0.
#[unsafe(no_mangle)]
pub extern "C" fn hedjosur_plain_format(m: u32, b: u32, n: u32, g: u32, state: &mut [u8]) -> u64
    ensures { PlainPacks (plain.format (record { M = m; B = b; N = n; g = g })) state.old result (state_slices state.new) }
{
    packed(plaincalls::format::format(m, b, n, g, state), |()| 0)
}

// Its flush: count × 2^20 + first page.
#[unsafe(no_mangle)]
pub extern "C" fn hedjosur_plain_flush(state: &mut [u8], batch: &[u32], plan: &mut [u32]) -> u64
    ensures { PlainPacks (plain.flush batch.now plan.old) state.old result
        (record { state = state.new; plan = plan.new; erased = [] }) }
{
    packed(plaincalls::flush::flush(state, batch, plan), pack::flushed)
}

// Its lookup: found × 2^56 + page.
#[unsafe(no_mangle)]
pub extern "C" fn hedjosur_plain_lookup(state: &[u8], page: u32) -> u64
    ensures { PlainPacks (plain.lookup page) state.now result (state_slices state.now) }
{
    packed(plaincalls::lookup::lookup(state, page), pack::page)
}

// Its discard: 0.
#[unsafe(no_mangle)]
pub extern "C" fn hedjosur_plain_discard(state: &mut [u8], page: u32) -> u64
    ensures { PlainPacks (plain.discard page) state.old result (state_slices state.new) }
{
    packed(plaincalls::discard::discard(state, page), |()| 0)
}

// Its collection: blocks erased × 2^40 + count × 2^20 + first page.
#[unsafe(no_mangle)]
pub extern "C" fn hedjosur_plain_collect(
    state: &mut [u8],
    plan: &mut [u32],
    erased: &mut [u32],
) -> u64
    ensures { PlainPacks (plain.collect plan.old erased.old) state.old result
        (record { state = state.new; plan = plan.new; erased = erased.new }) }
{
    packed(
        plaincalls::collect::collect(state, plan, erased),
        pack::collected,
    )
}
