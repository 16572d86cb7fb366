// Which intercepts suit, for 32 slopes at a time: of each slope the least and the most, counted from the flush's first page, plus 256.
ghost use Rattle.std.specs.Prelude.{◌≡◌, ◌+◌, ◌-◌, ◌<◌, ◌≤◌, min, leb, get_or};
ghost use Rattle.slopes.specs.Slopes.{Seeking, Lines, Small, Narrowed, NarrowedBy, Windows, some_of};

use crate::lines::PLACES;

// So many slopes are looked at at once.
pub(crate) const AT_ONCE: usize = 32;
// The same, as a step from slopes to slopes.
pub(crate) const STEP: u32 = 32;
// The last slope to begin them with: so many end with slope 255.
pub(crate) const LAST_BEGIN: u32 = 224;
// Above every intercept.
const ABOVE: u16 = 32767;
// Added to each intercept, so that none is negative.
pub const ADDED: u32 = 256;

// The run at a place of the sorted batch `written` is sought, among the pages of its group, which end before place `end`. A prediction
// keeps within g of its page, and to the batch, whose last place is `last`. `ends` are the ends of the lines behind the place.
#[derive(Clone, Copy)]
pub struct Sought<'a> {
    pub written: &'a [u32],
    pub ends: &'a [u8; PLACES],
    pub place: usize,
    pub end: usize,
    pub g: u32,
    pub last: u32,
    pub ghost seeking: { Seeking place end g last written.now },
    pub ghost lines: { Lines written.now ends.now place end },
}

impl Sought<'_> {
    // The least place that a prediction for place q may name.
    pub(crate) fn lowest(&self, q: u32) -> u32
        ensures { result ≡ q - self.now.g }
    {
        q.saturating_sub(self.g)
    }

    // The greatest one.
    pub(crate) fn highest(&self, q: u32) -> u32
        requires { q ≤ 255 }
        ensures { result ≡ min (q + self.now.g) self.now.last }
    {
        (q + self.g).min(self.last)
    }
}

// Of each of 32 slopes the least and the most intercept that suit.
#[derive(Clone, Copy)]
pub(crate) struct Intercepts {
    pub low: [u16; AT_ONCE],
    pub high: [u16; AT_ONCE],
}

impl Intercepts {
    // Those of the slopes from a on that suit the first page. Inlined: a call costs each search more.
    #[inline]
    pub(crate) fn new(s: &Sought, a: u32) -> Intercepts
        requires { a ≤ 224 }
        ensures { Windows s.now.g s.now.written.now a s.now.place 0 result.low result.high }
    {
        let mut suiting = Intercepts {
            low: [0; AT_ONCE],
            high: [ABOVE; AT_ONCE],
        };
        suiting.narrow_by(s, s.place, a);
        suiting
    }

    // Of each slope from a on only those stay that give offset o a place from l to h, plus 256.
    fn narrow(&mut self, a: u16, o: u16, l: u16, h: u16)
        requires { (a ≤ 224) × (o ≤ 255) × (256 ≤ l) × (l ≤ 32767) × (256 ≤ h) × (h ≤ 32767)
            × Small self.old.low × Small self.old.high }
        ensures { Narrowed a o l h self.old.low self.old.high self.new.low self.new.high }
    {
        for k in 0..AT_ONCE {
            let up = ((a + k as u16) * o + 255) / 256;
            self.low[k] = self.low[k].max(l - up);
            self.high[k] = self.high[k].min(h - up);
        }
    }

    // Only those stay that suit the page at place q, too.
    pub(crate) fn narrow_by(&mut self, s: &Sought, q: usize, a: u32)
        requires { (q < s.now.end) × (a ≤ 224) × Small self.old.low × Small self.old.high }
        ensures { NarrowedBy s.now.g s.now.written.now a q self.old.low self.old.high self.new.low self.new.high }
    {
        let o = (s.written[q] % 256) as u16;
        let l = (s.lowest(q as u32) + ADDED) as u16;
        let h = (s.highest(q as u32) + ADDED) as u16;
        self.narrow(a as u16, o, l, h);
    }

    // Whether a slope has one left.
    pub(crate) fn some_left(&self) -> bool
        ensures { result ≡ some_of (λ k. leb (get_or self.now.low k 0) (get_or self.now.high k 0)) 32 }
    {
        let mut so = false;
        for k in 0..AT_ONCE {
            so |= self.low[k] <= self.high[k];
        }
        so
    }
}
