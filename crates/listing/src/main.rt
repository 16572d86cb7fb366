// The listing program: it reads a script from standard input, a call on each line, and prints what is refused and what is listed.
#![tactic(auto)]

mod lent;
mod session;
mod show;

use lent::Memory;
use session::{LINE, Line, OutputBuffer, REPLY, run};
use std::io;

// How many bytes one read takes at most.
const INPUT: usize = 65536;

fn main(rt: HostRuntime) -> io::Result<()> {
    let mut script = rt.stdin();
    let mut output = rt.stdout();
    let mut input = [0u8; INPUT];
    let mut memory = Memory::new();
    let mut line = Line {
        bytes: [0; LINE],
        filled: 0,
    };
    let mut out = OutputBuffer {
        bytes: [0; REPLY],
        waiting: 0,
    };
    run(
        &mut script,
        &mut output,
        &mut input,
        &mut memory,
        &mut line,
        &mut out,
    )
}
