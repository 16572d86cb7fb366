// The pages that entries name are marked, sixteen entries at a time.
ghost use Rattle.std.specs.Prelude.{◌≡◌, true, ℕ, ◌+◌, ◌*◌, ◌≤◌, ◌<◌, length};
ghost use Rattle.model.specs.Lists.{elem};
ghost use Rattle.model.specs.Device.{pages};
ghost use Rattle.model.specs.Marks.{is_marked};
ghost use Rattle.plain.specs.Table.{entry_at, named_pages};
ghost use Rattle.front.specs.Read.{numbers_of};
ghost use Rattle.plainstate.specs.Reading.{read_table};
ghost use Rattle.plainstate.specs.Shaped.{Shaped};
ghost use Rattle.plainstate.specs.Bits.{Blank, bit_values, NamedTo, named_to};

use crate::bits::{fill_two, name_page};
use crate::entries::{NO_PAGE, entry};
use front::Numbers;

// Whether the sixteen entries from logical page x on are e, e + s, e + 2s and so on. All are read, without a test for each.
fn in_steps(state: &[u8], d: Numbers, x: u32, e: u32, s: u32) -> bool
    requires { Shaped (numbers_of d) (read_table state.now) × (x + 16 ≤ d.n) × (e + 16 * s ≤ 4294967295) }
    ensures { result ≡ true → (j : ℕ) → j < 16 → entry_at (read_table state.now) (x + j) ≡ e + j * s }
{
    let mut off = 0;
    for j in 0..16 {
        off |= entry(state, d, x + j) ^ (e + j * s);
    }
    off == 0
}

// Whether the sixteen entries from logical page x on are below n, a power of 2; with another n it may say no where they are.
fn all_below(state: &[u8], d: Numbers, x: u32, n: u32) -> bool
    requires { Shaped (numbers_of d) (read_table state.now) × (x + 16 ≤ d.n) }
    ensures { result ≡ true → (j : ℕ) → j < 16 → entry_at (read_table state.now) (x + j) < n }
{
    let mut any = 0;
    for j in 0..16 {
        any |= entry(state, d, x + j);
    }
    any < n
}

// The pages that these sixteen name are marked.
// Kept: tried and slower: name_any in its place, which chooses a page for each entry (1.4 times as long on entries in no order).
fn name_each(state: &[u8], d: Numbers, bits: &mut [u8], values: &[u32], x: u32)
    requires { Shaped (numbers_of d) (read_table state.now) × (values.now ≡ bit_values) × (x + 16 ≤ d.n)
        × ((j : ℕ) → j < 16 → entry_at (read_table state.now) (x + j) < 8 * length bits.old)
        × NamedTo (pages (numbers_of d)) x (read_table state.now).entries bits.old }
    ensures { NamedTo (pages (numbers_of d)) (x + 16) (read_table state.now).entries bits.new }
{
    for j in 0..16 {
        let e = entry(state, d, x + j);
        name_page(bits, values, e);
    }
}

// The pages that the entries from logical page x up to y name are marked; how many entries name one. Those that name none mark pages
// of their own behind the device's, from `beyond` on, eight apart: so none waits for another.
fn name_some(
    state: &[u8],
    d: Numbers,
    bits: &mut [u8],
    values: &[u32],
    beyond: u32,
    x: u32,
    y: u32,
) -> u32
    requires { Shaped (numbers_of d) (read_table state.now) × (values.now ≡ bit_values) × (pages (numbers_of d) ≤ beyond)
        × (beyond + 128 ≤ 8 * length bits.old) × (beyond ≤ 1048576) × (x ≤ y) × (y ≤ x + 16) × (y ≤ d.n)
        × NamedTo (pages (numbers_of d)) x (read_table state.now).entries bits.old }
    ensures count { result + named_to x (read_table state.now).entries ≡ named_to y (read_table state.now).entries }
    ensures bits { NamedTo (pages (numbers_of d)) y (read_table state.now).entries bits.new }
{
    let n = d.m * d.b;
    let mut c = 0;
    for j in x..y {
        let e = entry(state, d, j);
        let other = beyond + 8 * (j - x);
        let p = if e < n { e } else { other };
        name_page(bits, values, p);
        c += u32::from(e != NO_PAGE);
    }
    c
}

// So are those of sixteen entries, each below `beyond`, from logical page x on. Pages in a row that fill two bytes are marked at once.
fn name_below(state: &[u8], d: Numbers, bits: &mut [u8], values: &[u32], beyond: u32, x: u32)
    requires { Shaped (numbers_of d) (read_table state.now) × (values.now ≡ bit_values) × (beyond + 8 ≤ 8 * length bits.old) × (beyond ≤ 1048576) × (x + 16 ≤ d.n)
        × ((j : ℕ) → j < 16 → entry_at (read_table state.now) (x + j) < beyond)
        × NamedTo (pages (numbers_of d)) x (read_table state.now).entries bits.old }
    ensures { NamedTo (pages (numbers_of d)) (x + 16) (read_table state.now).entries bits.new }
{
    let e = entry(state, d, x);
    if e % 8 == 0 && in_steps(state, d, x, e, 1) {
        fill_two(bits, (e / 8) as usize);
    } else {
        name_each(state, d, bits, values, x);
    }
}

// So are those of any sixteen.
// Kept: tried and slower: name_some up to x + 16 in place of this and count_names (1.5 times as long on entries in no order).
fn name_any(state: &[u8], d: Numbers, bits: &mut [u8], values: &[u32], beyond: u32, x: u32)
    requires { Shaped (numbers_of d) (read_table state.now) × (values.now ≡ bit_values) × (pages (numbers_of d) ≤ beyond)
        × (beyond + 128 ≤ 8 * length bits.old) × (beyond ≤ 1048576) × (x + 16 ≤ d.n)
        × NamedTo (pages (numbers_of d)) x (read_table state.now).entries bits.old }
    ensures { NamedTo (pages (numbers_of d)) (x + 16) (read_table state.now).entries bits.new }
{
    let n = d.m * d.b;
    for j in 0..16 {
        let e = entry(state, d, x + j);
        let other = beyond + 8 * j;
        let p = if e < n { e } else { other };
        name_page(bits, values, p);
    }
}

// How many of the sixteen entries from logical page x on name a page.
fn count_names(state: &[u8], d: Numbers, x: u32) -> u32
    requires { Shaped (numbers_of d) (read_table state.now) × (x + 16 ≤ d.n) }
    ensures { result + named_to x (read_table state.now).entries ≡ named_to (x + 16) (read_table state.now).entries }
{
    let mut c = 0;
    for j in 0..16 {
        c += u32::from(entry(state, d, x + j) != NO_PAGE);
    }
    c
}

// The pages that sixteen entries name are marked; how many of them name one.
fn name_sixteen(
    state: &[u8],
    d: Numbers,
    bits: &mut [u8],
    values: &[u32],
    beyond: u32,
    x: u32,
) -> u32
    requires { Shaped (numbers_of d) (read_table state.now) × (values.now ≡ bit_values) × (pages (numbers_of d) ≤ beyond)
        × (beyond + 128 ≤ 8 * length bits.old) × (beyond ≤ 1048576) × (x + 16 ≤ d.n)
        × NamedTo (pages (numbers_of d)) x (read_table state.now).entries bits.old }
    ensures count { result + named_to x (read_table state.now).entries ≡ named_to (x + 16) (read_table state.now).entries }
    ensures bits { NamedTo (pages (numbers_of d)) (x + 16) (read_table state.now).entries bits.new }
{
    if all_below(state, d, x, beyond) {
        name_below(state, d, bits, values, beyond, x);
        16
    } else if in_steps(state, d, x, NO_PAGE, 0) {
        0
    } else {
        name_any(state, d, bits, values, beyond, x);
        count_names(state, d, x)
    }
}

// The pages that entries name are marked, behind which the bits have room for sixteen bytes more; how many entries name one.
pub fn name_all(state: &[u8], d: Numbers, bits: &mut [u8]) -> u32
    requires { Shaped (numbers_of d) (read_table state.now) × (pages (numbers_of d) + 128 ≤ 8 * length bits.old) × (length bits.old ≤ 131088) × Blank bits.old }
    ensures count { result ≡ length (named_pages (read_table state.now).entries) }
    ensures bits { (p : ℕ) → p < pages (numbers_of d) → is_marked bits.new p ≡ elem p (read_table state.now).entries }
{
    let values = [1u32, 2, 4, 8, 16, 32, 64, 128];
    let beyond = 8 * (bits.len() as u32) - 128;
    let sixteens = d.n / 16;
    let mut c = 0;
    for i in 0..sixteens {
        c += name_sixteen(state, d, bits, &values, beyond, 16 * i);
    }
    c + name_some(state, d, bits, &values, beyond, 16 * sixteens, d.n)
}
