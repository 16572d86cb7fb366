// The lookups of one group's logical pages in two states compared, by their forecasts.
ghost use Rattle.std.specs.Prelude.{◌≡◌, true, ℕ, ◌<◌, ◌≤◌, length, get_or};
ghost use Rattle.calls.specs.Lookup.{Looked};
ghost use Rattle.front.specs.Read.{numbers_of};
ghost use Rattle.answers.specs.Answers.{agree_answer};
ghost use Rattle.lookup.specs.Agreeing.{compared_from, ToldFrom, Left};
ghost use Rattle.lookup.specs.Passes.{SameBelow};

use crate::astray::{LIST, list_astray, list_held};
use crate::side::Side;
use answers::Refusal;
use state::seek::told;

// What comes of the logical pages from x on, whose forecasts are the same in both: those listed are looked up, the others are settled.
// Two lookups that are not alike don't end it, as a later one may still refuse 7.
fn compare_listed(
    a: Side,
    b: Side,
    x: u32,
    forecasts: &[u32],
    list: &[u8],
    n: usize,
) -> Result<bool, Refusal>
    requires { (x ≤ 1048576) × (length forecasts.now ≡ 256) × (length list.now ≡ 257) × (n ≤ 256) × ((i : ℕ) → i < n → get_or list.now i 0 < 256) }
    ensures { (p q : ℕ → Looked) (m : ℕ) → ToldFrom (numbers_of a.entry.d) a.entry.spare.now p x m forecasts.now → ToldFrom (numbers_of b.entry.d) b.entry.spare.now q x m forecasts.now
        → Left p q x m list.now n → agree_answer result ≡ compared_from p q x m }
{
    let mut same = true;
    for &o in &list[..n] {
        let f = forecasts[usize::from(o)];
        let page = x + u32::from(o);
        let Ok(first) = told(a.spare, a.d, page, f) else {
            return Err(Refusal::NotNamed);
        };
        let Ok(second) = told(b.spare, b.d, page, f) else {
            return Err(Refusal::NotNamed);
        };
        same &= first == second;
    }
    Ok(same)
}

// What comes of the m logical pages from x on, whose forecasts are the same in both.
fn compare_same(a: Side, b: Side, x: u32, m: u32, forecasts: &[u32]) -> Result<bool, Refusal>
    requires { (x ≤ 1048576) × (m ≤ 256) × (length forecasts.now ≡ 256) }
    ensures { (p q : ℕ → Looked) → ToldFrom (numbers_of a.entry.d) a.entry.spare.now p x m forecasts.now → ToldFrom (numbers_of b.entry.d) b.entry.spare.now q x m forecasts.now
        → agree_answer result ≡ compared_from p q x m }
{
    let mut held = [0u8; LIST];
    let mut astray = [0u8; LIST];
    let end = list_held(forecasts, m as usize, &mut held);
    let n = list_astray(a, b, x, forecasts, &held, end, &mut astray);
    compare_listed(a, b, x, forecasts, &astray, n)
}

// Whether the first m forecasts are the same.
fn same_forecasts(first: &[u32], second: &[u32], m: usize) -> bool
    requires { (m ≤ length first.now) × (m ≤ length second.now) }
    ensures { SameBelow first.now second.now m result }
{
    let mut same = true;
    for o in 0..m {
        same &= first[o] == second[o];
    }
    same
}

// What comes of the m logical pages from x on. Where their forecasts differ, they don't agree, unless a lookup refuses 7: each state is
// compared with itself for that.
pub fn compare_group(
    a: Side,
    first: &[u32],
    b: Side,
    second: &[u32],
    x: u32,
    m: u32,
) -> Result<bool, Refusal>
    requires { (x ≤ 1048576) × (m ≤ 256) × (length first.now ≡ 256) × (length second.now ≡ 256) }
    ensures { (p q : ℕ → Looked) → ToldFrom (numbers_of a.entry.d) a.entry.spare.now p x m first.now → ToldFrom (numbers_of b.entry.d) b.entry.spare.now q x m second.now
        → agree_answer result ≡ compared_from p q x m }
{
    if same_forecasts(first, second, m as usize) {
        return compare_same(a, b, x, m, first);
    }
    compare_same(a, a, x, m, first)?;
    compare_same(b, b, x, m, second)?;
    Ok(false)
}
