// The offsets of a group whose lookups have to be made one by one: a record holds them, and the middle entry of the page that it predicts
// doesn't name them. Each next place of a list is written before it is known whether it is kept, so that there is no branch.
ghost use Rattle.std.specs.Prelude.{◌≡◌, ℕ, ◌+◌, ◌%◌, ◌<◌, ◌≤◌, length, get_or};
ghost use Rattle.calls.specs.Lookup.{Looked};
ghost use Rattle.front.specs.Read.{numbers_of};
ghost use Rattle.forecast.specs.Forecast.{level_unit};
ghost use Rattle.lookup.specs.Agreeing.{ToldFrom, Picked, Settled};

use crate::side::Side;
use forecast::LEVEL;
use state::seek::strays;

// The length of a list: a place for each offset, and one more.
pub const LIST: usize = 257;

// Lists those of the first m offsets that a record holds; how many they are.
pub fn list_held(forecasts: &[u32], m: usize, list: &mut [u8]) -> usize
    requires { (length forecasts.now ≡ 256) × (m ≤ 256) × (length list.old ≡ 257) }
    ensures { Picked (λ o. get_or forecasts.now o 0 % level_unit ≡ 0) (λ j. j) m list.new result }
{
    let mut n = 0;
    for o in 0..m {
        list[n] = o as u8;
        n += usize::from(forecasts[o] % LEVEL != 0);
    }
    n
}

// Lists those of the held offsets that go astray on either side; how many they are.
pub fn list_astray(
    a: Side,
    b: Side,
    x: u32,
    forecasts: &[u32],
    held: &[u8],
    end: usize,
    list: &mut [u8],
) -> usize
    requires { (x ≤ 1048576) × (length forecasts.now ≡ 256) × (length held.now ≡ 257) × (end ≤ 256) × (length list.old ≡ 257)
        × ((i : ℕ) → i < end → get_or held.now i 0 < 256) }
    ensures { ((p q : ℕ → Looked) (m : ℕ) → ToldFrom (numbers_of a.entry.d) a.entry.spare.now p x m forecasts.now → ToldFrom (numbers_of b.entry.d) b.entry.spare.now q x m forecasts.now
        → ((i : ℕ) → i < end → get_or held.now i 0 < m)
        → Picked (λ o. Settled (p (x + o)) (q (x + o))) (λ j. get_or held.now j 0) end list.new result) × (result ≤ end) × ((i : ℕ) → i < result → get_or list.new i 0 < 256) }
{
    let mut n = 0;
    for &o in &held[..end] {
        let f = forecasts[usize::from(o)];
        let page = x + u32::from(o);
        list[n] = o;
        n += usize::from(strays(a.spare, a.d, page, f) | strays(b.spare, b.d, page, f));
    }
    n
}
