// The lookups of two states compared, group by group: each group's records are gone through once in each state.
ghost use Rattle.std.specs.Prelude.{◌≡◌};
ghost use Rattle.answers.specs.Answers.{agree_answer};
ghost use Rattle.state.specs.Reading.{read_state};
ghost use Rattle.lookup.specs.Agreeing.{compared};

use crate::pages::compare_group;
use crate::side::Side;
use answers::Refusal;
use state::numbers::group_count;
use state::seek::foretell_pages;

// The number of a group's offsets.
const OFFSETS: u32 = 256;

// The agreement of two sound states that have as many logical pages.
pub fn compare(a: Side, b: Side) -> Result<bool, Refusal>
    requires { a.d.n ≡ b.d.n }
    ensures { agree_answer result ≡ compared (read_state a.entry.state.now) a.entry.spare.now (read_state b.entry.state.now) b.entry.spare.now }
{
    let mut first = [0u32; OFFSETS as usize];
    let mut second = [0u32; OFFSETS as usize];
    let mut same = true;
    for k in 0..group_count(a.d) {
        let x = OFFSETS * k;
        let m = (a.d.n - x).min(OFFSETS);
        foretell_pages(a.state, a.d, x, m, &mut first);
        foretell_pages(b.state, b.d, x, m, &mut second);
        same &= compare_group(a, &first, b, &second, x, m)?;
    }
    Ok(same)
}
