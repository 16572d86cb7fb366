// The program's memory, and the calls on the parts of it that the device uses.
ghost use Rattle.std.specs.Prelude.{◌≡◌, length, replicate};
ghost use Rattle.calls.specs.History.{flush_call, lookup_call, collect_call, compact_call};
ghost use Rattle.front.specs.Read.{numbers_of, device_in};
ghost use Rattle.listing.specs.Sizes.{state_room, spare_room};
ghost use Rattle.listing.specs.Session.{takes_device};
ghost use Rattle.listing.specs.Memory.{refusal_in, InMemory, Obeyed, Formats};

use answers::Refusal;
use collection::collect::collect;
use flush::flush;
use front::{Head, Numbers};
use lookup::lookup::lookup;
use state::numbers::state_len;
use upkeep::compact::compact;
use upkeep::format::format;

// The memory: bytes of state, spare entries, and the blocks, pages of a block and logical pages that they allow.
const STATE: usize = 26784;

const SPARE: usize = 8192;

const BLOCKS: usize = 2048;

const PLAN: usize = 256;

const LOGICAL: u32 = 1024;

// The lengths in use: bytes of state, spare entries, blocks, pages of a block. All are 0 until a format is accepted.
#[derive(Clone, Copy)]
pub struct Held {
    pub state: usize,
    pub spare: usize,
    pub blocks: usize,
    pub pages: usize,
}

// Those of no device.
pub const NOTHING: Held = Held {
    state: 0,
    spare: 0,
    blocks: 0,
    pages: 0,
};

// The state and the spare area of the largest device, and the lengths that the device in them uses.
#[derive(Drop)]
pub struct Memory {
    pub state: [u8; STATE],
    pub spare: [u32; SPARE],
    pub held: Held,
}

impl Memory {
    // Without a device.
    pub fn new() -> Memory
        ensures { (length result.state ≡ state_room) × (length result.spare ≡ spare_room) }
    {
        Memory {
            state: [0; STATE],
            spare: [0; SPARE],
            held: NOTHING,
        }
    }

    // Looks a logical page up.
    pub fn look_up(&self, page: u32) -> Result<(), Refusal>
        requires { InMemory self.now.held self.now.state self.now.spare }
        ensures { Obeyed (lookup_call page) self.now.held.state self.now.held.spare
            self.now.state self.now.spare (refusal_in result) self.now.state self.now.spare }
    {
        let held = self.held;
        lookup(&self.state[..held.state], &self.spare[..held.spare], page)?;
        Ok(())
    }

    // Flushes a batch.
    pub fn flush(&mut self, batch: &[u32]) -> Result<(), Refusal>
        requires { InMemory self.old.held self.old.state self.old.spare }
        ensures obeyed { Obeyed (flush_call batch.now (replicate self.old.held.pages 0)) self.old.held.state self.old.held.spare
            self.old.state self.old.spare (refusal_in result) self.new.state self.new.spare }
        ensures kept { (self.new.held ≡ self.old.held) × (length self.new.state ≡ length self.old.state)
            × (length self.new.spare ≡ length self.old.spare) }
    {
        let mut plan = [0u32; PLAN];
        let held = self.held;
        let Memory { state, spare, .. } = self;
        let (state, _) = state.split_at_mut(held.state);
        let (spare, _) = spare.split_at_mut(held.spare);
        flush(state, spare, batch, &mut plan[..held.pages])?;
        Ok(())
    }

    // Collects.
    pub fn collect(&mut self) -> Result<(), Refusal>
        requires { InMemory self.old.held self.old.state self.old.spare }
        ensures obeyed { Obeyed (collect_call (replicate self.old.held.pages 0) (replicate self.old.held.blocks 0))
            self.old.held.state self.old.held.spare self.old.state self.old.spare (refusal_in result) self.new.state self.new.spare }
        ensures kept { (self.new.held ≡ self.old.held) × (length self.new.state ≡ length self.old.state)
            × (length self.new.spare ≡ length self.old.spare) }
    {
        let mut plan = [0u32; PLAN];
        let mut erased = [0u32; BLOCKS];
        let held = self.held;
        let Memory { state, spare, .. } = self;
        let (state, _) = state.split_at_mut(held.state);
        let (spare, _) = spare.split_at_mut(held.spare);
        collect(
            state,
            spare,
            &mut plan[..held.pages],
            &mut erased[..held.blocks],
        )?;
        Ok(())
    }

    // Compacts a group.
    pub fn compact(&mut self, group: u32) -> Result<(), Refusal>
        requires { InMemory self.old.held self.old.state self.old.spare }
        ensures obeyed { Obeyed (compact_call group) self.old.held.state self.old.held.spare
            self.old.state self.old.spare (refusal_in result) self.new.state self.new.spare }
        ensures kept { (self.new.held ≡ self.old.held) × (length self.new.state ≡ length self.old.state)
            × (length self.new.spare ≡ length self.old.spare) }
    {
        let held = self.held;
        compact(&mut self.state[..held.state], group)?;
        Ok(())
    }

    // Formats a device that is taken; any other is refused, and leaves the memory as it was.
    pub fn format(&mut self, h: Head) -> Result<(), Refusal>
        requires { InMemory self.old.held self.old.state self.old.spare }
        ensures { Formats (device_in h) self.old.held self.old.state self.old.spare result self.new.held self.new.state self.new.spare }
    {
        let Some(d) = h.checked() else {
            return Err(Refusal::BadNumbers);
        };
        if !takes(d) {
            return Err(Refusal::BadNumbers);
        }
        let s = state_len(d);
        let p = spare::spare_len(d);
        let Memory { state, spare, .. } = self;
        let (part, _) = state.split_at_mut(s);
        let (entries, _) = spare.split_at_mut(p);
        format(d.m, d.b, d.n, d.g, part, entries)?;
        self.held = Held {
            state: s,
            spare: p,
            blocks: d.m as usize,
            pages: d.b as usize,
        };
        Ok(())
    }
}

// Whether the program takes the device.
fn takes(d: Numbers) -> bool
    ensures { result ≡ takes_device (numbers_of d) }
{
    d.n <= LOGICAL && spare::spare_len(d) <= SPARE
}
