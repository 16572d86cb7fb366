// The device numbers at the state's start, and their limits.
ghost use Rattle.std.specs.Prelude.{◌≡◌, false, ◌≤◌, length, MatchOption};
ghost use Rattle.model.specs.Lists.{store};
ghost use Rattle.model.specs.Device.{within_limits, head_length};
ghost use Rattle.front.specs.Read.{numbers_of, device_in};
ghost use Rattle.front.specs.Reading.{numbers_at};
ghost use Rattle.front.specs.Formatting.{head_of};

use crate::{Head, Numbers};

// The bytes that they take.
pub const HEAD: usize = 16;

// The device numbers at the state's start.
pub fn numbers(state: &[u8]) -> Head
    requires { head_length ≤ length state.now }
    ensures { device_in result ≡ numbers_at state.now }
{
    let m = octets::get_u32(state, 0);
    let b = octets::get_u32(state, 4);
    let n = octets::get_u32(state, 8);
    let g = octets::get_u32(state, 12);
    Head { m, b, n, g }
}

// The device numbers are stored at the state's start.
pub fn write_numbers(state: &mut [u8], h: Head)
    requires { head_length ≤ length state.old }
    ensures { state.new ≡ store state.old 0 (head_of (device_in h)) }
{
    octets::put_u32(state, 0, h.m);
    octets::put_u32(state, 4, h.b);
    octets::put_u32(state, 8, h.n);
    octets::put_u32(state, 12, h.g);
}

// Whether the numbers are within document 01's limits.
pub fn within_limits(h: Head) -> bool
    ensures { result ≡ within_limits (device_in h) }
{
    (3..=4096).contains(&h.m)
        && (4..=256).contains(&h.b)
        && 1 <= h.n
        && 2 * u64::from(h.n) <= u64::from((h.m - 1) * h.b)
        && h.g <= 15
}

impl Head {
    // These numbers, where they are within the limits.
    pub fn checked(self) -> Option<Numbers>
        ensures { MatchOption result (within_limits (device_in self) ≡ false) (λ d. numbers_of d ≡ device_in self) }
    {
        if within_limits(self) {
            let Head { m, b, n, g } = self;
            Some(Numbers { m, b, n, g })
        } else {
            None
        }
    }
}

impl Numbers {
    // The same four, as they are stored.
    pub fn head(self) -> Head
        ensures { device_in result ≡ numbers_of self }
    {
        let Numbers { m, b, n, g } = self;
        Head { m, b, n, g }
    }
}
