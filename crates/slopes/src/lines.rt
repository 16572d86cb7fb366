// Where the pages of a batch go on at one stride. Over such a line, what suits its two ends suits all of it.
ghost use Rattle.std.specs.Prelude.{◌≡◌, true, ◌≤◌, ◌<◌, length};
ghost use Rattle.model.specs.Lists.{ascending};
ghost use Rattle.slopes.specs.Slopes.{Line, Lines};

use crate::windows::Sought;

// At most so many places has a batch.
pub const PLACES: usize = 256;

// For each place behind i and before e, the last one up to which the pages go on at the stride from the place before it.
pub fn find_lines(written: &[u32], i: usize, e: usize, ends: &mut [u8; PLACES])
    requires { (ascending written.now ≡ true) × (i ≤ e) × (e ≤ length written.now) × (length written.now ≤ 256)
        × (256 ≤ length ends.old) }
    ensures { Lines written.now ends.new i e }
{
    let mut end = 0;
    let mut stride = 0;
    for j in (i + 1..e).rev() {
        let here = written[j] - written[j - 1];
        if here != stride {
            end = j;
        }
        stride = here;
        ends[j] = end as u8;
    }
}

impl Sought<'_> {
    // The last place, before `end`, of the line at place q.
    pub(crate) fn line_end(&self, q: usize, end: usize) -> usize
        requires { (self.now.place < q) × (q < end) × (end ≤ self.now.end) }
        ensures { Line self.now.written.now q result × (result < end) }
    {
        usize::from(self.ends[q]).min(end - 1)
    }
}
