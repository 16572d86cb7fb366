// The front of a state: the device numbers and each block's count of written pages (docs/LAYOUT.md). Both engines' states begin so; the
// functions here take any bytes that are long enough, whatever follows the counts.
#![tactic(auto)]

ghost use Rattle.std.specs.Prelude.{◌≡◌, true};
ghost use Rattle.model.specs.Device.{within_limits};

pub mod counts;
pub mod device;

// The device numbers, within document 01's limits: m blocks of b pages, n logical pages, the error bound g.
#[derive(Clone, Copy)]
pub struct Numbers {
    pub m: u32,
    pub b: u32,
    pub n: u32,
    pub g: u32,
    pub ghost limits: { within_limits (record { M = m; B = b; N = n; g = g }) ≡ true },
}

// Four numbers as they are lent, or as they stand at a state's start: whether they are within the limits is still to be checked.
#[derive(Clone, Copy)]
pub struct Head {
    pub m: u32,
    pub b: u32,
    pub n: u32,
    pub g: u32,
}
