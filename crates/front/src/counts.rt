// Each block's count of written pages; 0 is free.
ghost use Rattle.std.specs.Prelude.{◌≡◌, [], ◌∷◌, ◌+◌, ◌*◌, ◌≤◌, ◌<◌, leb, length, get_or, set};
ghost use Rattle.model.specs.Lists.{all, store};
ghost use Rattle.model.specs.State.{free_blocks, lowest_in};
ghost use Rattle.octets.specs.Little.{bytes2};
ghost use Rattle.front.specs.Read.{numbers_of};
ghost use Rattle.front.specs.Reading.{read_counts};

use crate::Numbers;
use crate::device::HEAD;

// The bytes of a count.
const COUNT: usize = 2;

// The place of block k's count, and of what follows the last one.
pub fn count_place(k: u32) -> usize
    requires { k ≤ 4096 }
    ensures { result ≡ 16 + 2 * k }
{
    HEAD + COUNT * (k as usize)
}

// Block k's count.
pub fn count(state: &[u8], d: Numbers, k: u32) -> u32
    requires { (16 + 2 * d.m ≤ length state.now) × (k < d.m) }
    ensures { (result ≡ get_or (read_counts (numbers_of d) state.now) k 0) × (result < 65536) }
{
    let p = count_place(k);
    octets::get_u16(state, p)
}

// Block k's count becomes v, and no other byte changes.
pub fn set_count(state: &mut [u8], d: Numbers, k: u32, v: u32)
    requires { (16 + 2 * d.m ≤ length state.old) × (k < d.m) × (v < 65536) }
    ensures state_after { read_counts (numbers_of d) state.new ≡ set (read_counts (numbers_of d) state.old) k v }
    ensures state_after_2 { state.new ≡ store state.old (16 + 2 * k) (bytes2 v) }
{
    let p = count_place(k);
    octets::put_u16(state, p, v);
}

// How many blocks are free.
pub fn free_count(state: &[u8], d: Numbers) -> u32
    requires { 16 + 2 * d.m ≤ length state.now }
    ensures { result ≡ length (free_blocks 0 (read_counts (numbers_of d) state.now)) }
{
    let mut n = 0;
    for k in 0..d.m {
        n += u32::from(count(state, d, k) == 0);
    }
    n
}

// The lowest-numbered free block; 0 where none is free.
// Kept: what may not change is `State.lowest_in`, which is 0 there; who asks has made sure that one is.
pub fn lowest_free(state: &[u8], d: Numbers) -> u32
    requires { 16 + 2 * d.m ≤ length state.now }
    ensures { result ≡ lowest_in (read_counts (numbers_of d) state.now) }
{
    for k in 0..d.m {
        if count(state, d, k) == 0 {
            return k;
        }
    }
    0
}

// Whether no count exceeds B.
pub fn counts_sound(state: &[u8], d: Numbers) -> bool
    requires { 16 + 2 * d.m ≤ length state.now }
    ensures { result ≡ all (λ c. leb c d.b) (read_counts (numbers_of d) state.now) }
{
    (0..d.m).all(|k| count(state, d, k) <= d.b)
}
