// The spare area as a layer of its own (document 01, 'The device'): it is erased by whole blocks, its pages are programmed once
// after the erase, and a lookup reads from it which page holds a logical page. A block is erased and programmed in one pass
// (document 02, c), which writes each of its entries a single time and may be stopped after any. By its functions a caller can't
// program without an erase: of those that program, `program_block` alone is public, and its pass is erase and programming.
#![tactic(auto)]

ghost use Rattle.std.specs.Prelude.{◌≡◌, ◌+◌, ◌*◌, ◌-◌, ◌≤◌, ◌<◌, length, take, drop, replicate};
ghost use Rattle.model.specs.Lists.{store};
ghost use Rattle.model.specs.Options.{as_option};
ghost use Rattle.model.specs.Device.{pages, names_per_page, entries_per_page, entries_per_block, spare_length};
ghost use Rattle.model.specs.Spare.{nobody, entry, middle, erase, pass_block, Stopped, names, lowest_naming, page_named};
ghost use Rattle.front.specs.Read.{numbers_of};
ghost use Rattle.spare.specs.Around.{Programmed};

use front::Numbers;

// The entry that names nobody.
// Kept: the C interface: the spare area is lent as numbers.
const NOBODY: u32 = 4294967295;

// A block's pages at most, and the greatest bound on either side of them.
const AROUND: usize = 286;

// How many spare entries a page has.
fn entries_per_page(d: Numbers) -> u32
    ensures { result ≡ entries_per_page (numbers_of d) }
{
    2 * d.g + 1
}

// How many a block has.
pub fn entries_per_block(d: Numbers) -> u32
    ensures { result ≡ entries_per_block (numbers_of d) }
{
    d.b * entries_per_page(d)
}

// The length of the spare area, in entries.
pub fn spare_len(d: Numbers) -> usize
    ensures { result ≡ spare_length (numbers_of d) }
{
    (d.m * entries_per_block(d)) as usize
}

// Entry j of page p.
fn entry(spare: &[u32], d: Numbers, p: u32, j: u32) -> u32
    requires { (length spare.now ≡ spare_length (numbers_of d))
        × (p < pages (numbers_of d)) × (j < entries_per_page (numbers_of d)) }
    ensures { result ≡ entry (numbers_of d) spare.now p j }
{
    let at = (p * entries_per_page(d) + j) as usize;
    spare[at]
}

// A page's middle entry: the one for the page itself.
pub fn middle(spare: &[u32], d: Numbers, p: u32) -> u32
    requires { (length spare.now ≡ spare_length (numbers_of d))
        × (p < pages (numbers_of d)) }
    ensures { result ≡ middle (numbers_of d) spare.now p }
{
    entry(spare, d, p, d.g)
}

// Whether entry j of page p names the logical page x; an entry for a page that doesn't exist names nobody.
fn names(spare: &[u32], d: Numbers, p: u32, x: u32, j: u32) -> bool
    requires { (length spare.now ≡ spare_length (numbers_of d))
        × (p < pages (numbers_of d)) × (j < entries_per_page (numbers_of d)) }
    ensures { result ≡ names (numbers_of d) spare.now p x j }
{
    let q = p + j;
    d.g <= q && q - d.g < d.m * d.b && entry(spare, d, p, j) == x
}

// The page of the lowest entry of page p that names x.
fn lowest_naming(spare: &[u32], d: Numbers, p: u32, x: u32) -> Option<u32>
    requires { (length spare.now ≡ spare_length (numbers_of d))
        × (p < pages (numbers_of d)) }
    ensures { as_option result ≡ lowest_naming (numbers_of d) spare.now p x 0 (names_per_page (numbers_of d)) }
{
    for j in 0..entries_per_page(d) {
        if names(spare, d, p, x, j) {
            return Some(p + j - d.g);
        }
    }
    None
}

// The page that holds x where p is predicted for it: p itself if its middle entry names x, else that of the lowest entry that does.
pub fn page_named(spare: &[u32], d: Numbers, p: u32, x: u32) -> Option<u32>
    requires { (length spare.now ≡ spare_length (numbers_of d))
        × (p < pages (numbers_of d)) }
    ensures { as_option result ≡ page_named (numbers_of d) spare.now p x }
{
    if middle(spare, d, p) == x {
        Some(p)
    } else {
        lowest_naming(spare, d, p, x)
    }
}

// Block k is erased.
pub fn erase(spare: &mut [u32], d: Numbers, k: u32)
    requires { (length spare.old ≡ spare_length (numbers_of d))
        × (k < d.m) }
    ensures { spare.new ≡ erase (numbers_of d) k spare.old }
{
    let n = entries_per_block(d);
    let a = (k * n) as usize;
    let e = a + n as usize;
    spare[a..e].fill(NOBODY);
}

// Every block is erased.
pub fn erase_all(spare: &mut [u32])
    ensures { spare.new ≡ replicate (length spare.old) nobody }
{
    spare.fill(NOBODY);
}

// The m entries from place at on are written: those of another slice from place i on.
// Kept: tried and slower: `copy_from_slice`, by a third for the few entries of a page.
fn copy(to: &mut [u32], at: usize, from: &[u32], i: usize, m: usize)
    requires { (at + m ≤ length to.old) × (i + m ≤ length from.now) }
    ensures { to.new ≡ store to.old at (take m (drop i from.now)) }
{
    for j in 0..m {
        to[at + j] = from[i + j];
    }
}

// Of the m entries of another slice from place i on as many as may still be written, `left`, are written from place at on. The answer is
// how many may be written after them.
fn put(spare: &mut [u32], at: usize, from: &[u32], i: usize, m: usize, left: usize) -> usize
    requires { (at + m ≤ length spare.old) × (i + m ≤ length from.now) }
    ensures count { result ≡ left - m }
    ensures written { spare.new ≡ store spare.old at (take left (take m (drop i from.now))) }
{
    if left < m {
        copy(spare, at, from, i, left);
        0
    } else {
        copy(spare, at, from, i, m);
        left - m
    }
}

// The entries of the pages are written one after the other from place a on, n for each: those from place i on of what lies around, for
// page i. No more than `stop` are written; the answer is how many may be after them.
fn program_pages(
    spare: &mut [u32],
    around: &[u32],
    pages: usize,
    n: usize,
    a: usize,
    stop: usize,
) -> usize
    requires { (a + pages * n ≤ length spare.old) × (pages + n ≤ length around.now + 1) }
    ensures { Programmed around.now pages n a stop spare.old spare.new result }
{
    let mut left = stop;
    for i in 0..pages {
        left = put(spare, a + i * n, around, i, n, left);
    }
    left
}

// The same: for each number of entries a page the compiler knows how many it copies. One entry a page is the written pages themselves, in
// one piece.
// Kept: tried and slower: one call with n for every width takes up to 2.8 times as long.
fn program_by_width(
    spare: &mut [u32],
    around: &[u32],
    pages: usize,
    n: usize,
    a: usize,
    stop: usize,
) -> usize
    requires { (a + pages * n ≤ length spare.old) × (pages + n ≤ length around.now + 1) }
    ensures { Programmed around.now pages n a stop spare.old spare.new result }
{
    match n {
        1 => put(spare, a, around, 0, pages, stop),
        3 => program_pages(spare, around, pages, 3, a, stop),
        5 => program_pages(spare, around, pages, 5, a, stop),
        7 => program_pages(spare, around, pages, 7, a, stop),
        9 => program_pages(spare, around, pages, 9, a, stop),
        11 => program_pages(spare, around, pages, 11, a, stop),
        13 => program_pages(spare, around, pages, 13, a, stop),
        15 => program_pages(spare, around, pages, 15, a, stop),
        17 => program_pages(spare, around, pages, 17, a, stop),
        19 => program_pages(spare, around, pages, 19, a, stop),
        21 => program_pages(spare, around, pages, 21, a, stop),
        23 => program_pages(spare, around, pages, 23, a, stop),
        25 => program_pages(spare, around, pages, 25, a, stop),
        27 => program_pages(spare, around, pages, 27, a, stop),
        29 => program_pages(spare, around, pages, 29, a, stop),
        31 => program_pages(spare, around, pages, 31, a, stop),
        _ => program_pages(spare, around, pages, n, a, stop),
    }
}

// The entries of block k are written, each a single time, from its first to its last, until stop of them are: those of the pages that
// written lists, then the unused pages' as erased. What is written is counted down from the stop, so an entry written twice would be
// missing at the end. A flush or collection asks for all of them.
pub fn program_block(spare: &mut [u32], d: Numbers, written: &[u32], k: u32, stop: usize)
    requires { (length spare.old ≡ spare_length (numbers_of d))
        × (k < d.m) × (length written.now ≤ d.b) × (stop ≤ entries_per_block (numbers_of d)) }
    ensures spare_after { spare.new ≡ pass_block (numbers_of d) written.now k stop spare.old }
    ensures stopped { Stopped (numbers_of d) written.now k stop spare.old spare.new }
{
    let g = d.g as usize;
    let b = d.b as usize;
    let n = entries_per_page(d) as usize;
    let pages = written.len();
    let a = k as usize * (b * n);
    // What was written, with places that name nobody around it: entry j of page i is at place i + j.
    let mut around = [NOBODY; AROUND];
    copy(&mut around, g, written, 0, pages);
    let left = program_by_width(spare, &around, pages, n, a, stop);
    let at = a + pages * n;
    spare[at..at + left].fill(NOBODY);
}
