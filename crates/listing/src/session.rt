// A script, line by line.
ghost use Rattle.std.specs.Prelude.{◌≡◌, ◌^◌, ◌<◌, ◌≤◌, length, take, IfOk, OnOk, OnErr, IfSome};
ghost use Rattle.std.specs.Io.KnownBytes.{Appends};
ghost use Rattle.lines.specs.Printed.{Laid};
ghost use Rattle.listing.specs.Sizes.{line_room, state_room, spare_room, reply_room};
ghost use Rattle.listing.specs.Session.{list_reply, reply_to, transcript};
ghost use Rattle.listing.specs.Memory.{in_use, InMemory, Replied};
ghost use Rattle.listing.specs.Progress.{ending, fed_prints, progress, Going, Stepped, Fed, Stopped, Left, LeftBy};

use crate::lent::{Memory, NOTHING};
use crate::show::{lay_listing, lay_refusal};
use front::Head;
use lines::print::{lay_bad, lay_refused};
use lines::read::{Call, Operation, read};
use lookup::list::{LISTING, list};
use std::io;
use std::io::{Read, Write};

// The line buffer's length. A call's line has at most 514 bytes, so of a longer one the first 515 are a bad line as well as the whole.
pub const LINE: usize = 515;

// The output buffer's length: what one line prints, at most a head line of 35 characters and 512 records' lines of at most 56.
pub const REPLY: usize = 28707;

// What has come of a line.
#[derive(Drop)]
pub struct Line {
    pub bytes: [u8; LINE],
    pub filled: usize,
}

// The output buffer: at its front what a line prints, and how many bytes of that still wait to be handed to the output.
#[derive(Drop)]
pub struct OutputBuffer {
    pub bytes: [u8; REPLY],
    pub waiting: usize,
}

// Lists a group, or says that it is refused; how many bytes that prints.
fn list_group(memory: &Memory, group: u32, out: &mut [u8]) -> usize
    requires { InMemory memory.now.held memory.now.state memory.now.spare × (length out.old ≡ reply_room) }
    ensures { Laid out.old out.new 0 result
        (list_reply group (in_use memory.now.held memory.now.state memory.now.spare)).printed }
{
    let mut listing = [0u8; LISTING];
    match list(&memory.state[..memory.held.state], group, &mut listing) {
        Ok(n) => lay_listing(out, &listing, n as usize),
        Err(refusal) => lay_refused(out, u32::from(refusal)),
    }
}

// Obeys one line; how many bytes that prints.
fn obey(memory: &mut Memory, line: &[u8], out: &mut [u8]) -> usize
    requires { InMemory memory.old.held memory.old.state memory.old.spare × (length out.old ≡ reply_room) }
    ensures { Replied (reply_to line.now (in_use memory.old.held memory.old.state memory.old.spare))
        memory.old.state memory.old.spare out.old (record { held = memory.new.held; laid = result }) memory.new.state memory.new.spare out.new }
{
    let mut numbers = [0u32; 64];
    let Some(Call { operation, count }) = read(line, &mut numbers) else {
        return lay_bad(out);
    };
    let first = numbers[0];
    let answer = match operation {
        Operation::Format => {
            let h = Head {
                m: first,
                b: numbers[1],
                n: numbers[2],
                g: numbers[3],
            };
            memory.format(h)
        }
        Operation::Flush => memory.flush(&numbers[..count]),
        Operation::LookUp => memory.look_up(first),
        Operation::Collect => memory.collect(),
        Operation::Compact => memory.compact(first),
        Operation::List => return list_group(memory, first, out),
    };
    lay_refusal(out, answer)
}

// One byte of the script, where no output waits: a newline ends the line, any other byte belongs to it.
fn step(memory: &mut Memory, line: &mut Line, byte: u8, out: &mut OutputBuffer)
    requires { Going (record { held = memory.old.held; filled = line.old.filled; laid = out.old.waiting })
        line.old.bytes memory.old.state memory.old.spare out.old.bytes × (out.old.waiting ≡ 0) }
    ensures { Stepped byte (progress (record { held = memory.old.held; filled = line.old.filled; laid = out.old.waiting })
        line.old.bytes memory.old.state memory.old.spare) memory.old.state memory.old.spare out.old.bytes
        (record { held = memory.new.held; filled = line.new.filled; laid = out.new.waiting })
        line.new.bytes memory.new.state memory.new.spare out.new.bytes }
{
    let n = line.filled;
    if byte == b'\n' {
        line.filled = 0;
        out.waiting = obey(memory, &line.bytes[..n], &mut out.bytes);
        return;
    }
    if n < LINE {
        line.bytes[n] = byte;
        line.filled = n + 1;
    }
}

// Hands what waits in the output buffer to the output; then none waits.
fn hand<W: Write>(output: &mut W, out: &mut OutputBuffer) -> io::Result<()>
    requires { out.old.waiting ≤ length out.old.bytes }
    ensures waits { OnOk result (out.new.waiting ≡ 0) }
    ensures prints { OnOk result (Appends (W.contents output.old) (W.contents output.new) (take out.old.waiting out.old.bytes)) }
    ensures same { out.new.bytes ≡ out.old.bytes }
{
    output.write_all(&out.bytes[..out.waiting])?;
    out.waiting = 0;
    Ok(())
}

// Bytes of the script, one after the other; what each prints is handed over before the next. A failed write ends it: the bytes before it
// and the one that printed are taken, the others are not.
fn feed<W: Write>(
    output: &mut W,
    memory: &mut Memory,
    line: &mut Line,
    bytes: &[u8],
    out: &mut OutputBuffer,
) -> io::Result<()>
    requires { Going (record { held = memory.old.held; filled = line.old.filled; laid = out.old.waiting })
        line.old.bytes memory.old.state memory.old.spare out.old.bytes × (out.old.waiting ≡ 0) }
    ensures fed { IfOk result (λ _. Fed bytes.now (progress (record { held = memory.old.held; filled = line.old.filled; laid = out.old.waiting })
        line.old.bytes memory.old.state memory.old.spare) (record { held = memory.new.held; filled = line.new.filled; laid = out.new.waiting })
        line.new.bytes memory.new.state memory.new.spare out.new.bytes) }
    ensures stopped { OnErr result (Stopped bytes.now (progress (record { held = memory.old.held; filled = line.old.filled; laid = out.old.waiting })
        line.old.bytes memory.old.state memory.old.spare) line.new.bytes memory.new.state memory.new.spare out.new.bytes) }
    ensures prints { OnOk result (Appends (W.contents output.old) (W.contents output.new)
        (fed_prints bytes.now (progress (record { held = memory.old.held; filled = line.old.filled; laid = out.old.waiting })
        line.old.bytes memory.old.state memory.old.spare))) }
{
    for byte in bytes {
        step(memory, line, *byte, out);
        hand(output, out)?;
    }
    Ok(())
}

// The end of the script, where no output waits; its last line may lack its newline.
fn finish(memory: &mut Memory, line: &Line, out: &mut OutputBuffer)
    requires { Going (record { held = memory.old.held; filled = line.now.filled; laid = out.old.waiting })
        line.now.bytes memory.old.state memory.old.spare out.old.bytes × (out.old.waiting ≡ 0) }
    ensures { Replied (ending (progress (record { held = memory.old.held; filled = line.now.filled; laid = out.old.waiting })
        line.now.bytes memory.old.state memory.old.spare)) memory.old.state memory.old.spare out.old.bytes
        (record { held = memory.new.held; laid = out.new.waiting }) memory.new.state memory.new.spare out.new.bytes }
{
    let n = line.filled;
    if n == 0 {
        return;
    }
    out.waiting = obey(memory, &line.bytes[..n], &mut out.bytes);
}

// Obeys a script, and prints what is refused and what is listed. A proved loop has to end, and nothing says that a script does: the turns
// are counted up to a number that no run reaches. Of a reader whose bytes are known, all are taken, their session is left and their
// transcript is printed. A failed read or write ends the run with that error; the memory then holds the session of some script too.
pub fn run<R: Read, W: Write>(
    script: &mut R,
    output: &mut W,
    input: &mut [u8],
    memory: &mut Memory,
    line: &mut Line,
    out: &mut OutputBuffer,
) -> io::Result<()>
    requires { (length line.old.bytes ≡ line_room) × (length memory.old.state ≡ state_room)
        × (length memory.old.spare ≡ spare_room) × (length out.old.bytes ≡ reply_room) }
    ensures left { Left memory.new.state memory.new.spare }
    ensures session { OnOk result (IfSome (R.remaining script.old) (λ bytes. 0 < length input.old → length bytes < 2 ^ 64
        → LeftBy bytes memory.new.state memory.new.spare)) }
    ensures prints { OnOk result (IfSome (R.remaining script.old) (λ bytes. 0 < length input.old → length bytes < 2 ^ 64
        → Appends (W.contents output.old) (W.contents output.new) (transcript bytes))) }
{
    memory.held = NOTHING;
    line.filled = 0;
    out.waiting = 0;
    for turn in 0..u64::MAX {
        let came = script.read(input)?;
        if came == 0 {
            break;
        }
        feed(output, memory, line, &input[..came], out)?;
    }
    finish(memory, line, out);
    hand(output, out)
}
