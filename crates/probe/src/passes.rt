// A block's spare entries written in one pass, stopped anywhere.
ghost use Rattle.std.specs.Prelude.{◌≡◌, length};
ghost use Rattle.front.specs.Read.{numbers_of};
ghost use Rattle.probe.specs.Passes.{programmable, Programs};

use crate::OUTSIDE;
use front::{Head, Numbers};
use spare::{entries_per_block, program_block, spare_len};

// Whether a pass over block k can be made with l spare entries, p written pages and this stop.
fn may_program(d: Numbers, l: usize, p: usize, k: u32, stop: u32) -> bool
    ensures { result ≡ programmable (numbers_of d) l p k stop }
{
    if l != spare_len(d) {
        return false;
    }
    if d.m <= k {
        return false;
    }
    if (d.b as usize) < p {
        return false;
    }
    stop <= entries_per_block(d)
}

// The entries of a block written from its first on, until stop of them are: 0.
#[unsafe(no_mangle)]
pub extern "C" fn probe_program(
    m: u32,
    b: u32,
    n: u32,
    g: u32,
    spare: &mut [u32],
    written: &[u32],
    block: u32,
    stop: u32,
) -> u64
    ensures { Programs (programmable (record { M = m; B = b; N = n; g = g }) (length spare.old) (length written.now) block stop)
        (record { M = m; B = b; N = n; g = g }) written.now block stop spare.old spare.new result }
{
    let Some(d) = Head { m, b, n, g }.checked() else {
        return OUTSIDE;
    };
    if !may_program(d, spare.len(), written.len(), block, stop) {
        return OUTSIDE;
    }
    program_block(spare, d, written, block, stop as usize);
    0
}
