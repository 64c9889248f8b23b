// Eight rows at a time, each lane of a block in a row of its own. The ordinary
// pairs first, eight at a time while there are so many, the rest one by one;
// then the last pair, whose next averages are chosen, and the tails. One row goes
// likewise (crate rows), but as single samples: the transposed stores and the parts of
// residuals are for the vector code and the cache (horizontal no slower than the Rust),
// and one function over both would be no plainer. Each function with a loop, and each
// that calls one, is inlined: callers with a mark and without one would share it, and the
// compiler would know no more that the slices lie apart (a tenth more time at 4,096
// square). Total: where sizes or slices do not fit the output stays as it was.
#![tactic(auto)]

mod lanes;

ghost use Rattle.std.specs.Prelude.{◌≡◌, true, cond, List, ◌⊎◌, ℕ, ◌+◌, ◌-◌, ◌*◌, ◌<◌, ◌≤◌, ltb, ℤ, pos, length, get_or};
ghost use Rattle.line.specs.Line.{or_else};
ghost use Rattle.line.specs.Uncut.{uncut, Fitting, outer};
ghost use Rattle.line.specs.Pairs.{lines_of, inner, Ordinary, Ended};
ghost use Rattle.line.specs.Into.{uncut_into};
ghost use Rattle.line.specs.Squeezed.{squeeze_of};
ghost use Rattle.eight_rows.specs.Lanes.{lanes_at, lane};

use crate::lanes::{load_lanes, store_four, store_lanes};
use line::Squeezed;

// The eight samples of an outer line, or what stands in for them.
fn outer_lanes(line: &[i32], other: [i32; 8]) -> [i32; 8]
    requires { (length line.now ≡ 0) ⊎ (length line.now ≡ 8) }
    ensures { (k : ℕ) → k < 8 → get_or result k (pos 0) ≡ or_else (outer line.now k) (get_or other k (pos 0)) }
{
    if line.len() == 0 {
        other
    } else {
        load_lanes(line, 0, 1)
    }
}

// Eight rows, their averages and residuals as long as they have to be. Their output is
// lent to each method, since a struct that holds a `&mut` would have to say that it is
// still the caller's.
#[derive(Drop)]
struct EightRows<'a> {
    squeezed: Squeezed<'a>,
    ghost low: { squeezed.residuals ≤ squeezed.averages },
    ghost sized: { (length squeezed.avg.now ≡ 8 * squeezed.averages) × (length squeezed.res.now ≡ 8 * squeezed.residuals) },
}

impl EightRows<'_> {
    // Average i of each row.
    fn averages(&self, i: usize) -> [i32; 8]
        requires { i < self.now.squeezed.averages }
        ensures { result ≡ lanes_at self.now.squeezed.avg.now i self.now.squeezed.averages }
    {
        load_lanes(self.squeezed.avg, i, self.squeezed.averages)
    }

    // Residual i of each row.
    fn residuals(&self, i: usize) -> [i32; 8]
        requires { i < self.now.squeezed.residuals }
        ensures { result ≡ lanes_at self.now.squeezed.res.now i self.now.squeezed.residuals }
    {
        load_lanes(self.squeezed.res, i, self.squeezed.residuals)
    }

    // Residuals `at` to at + 7 of each row, row after row. Not `array::from_fn` over
    // the 64 places: 64 rows of 64 samples take 63,262 instructions with it, in place
    // of 48,743 (no call slower than before).
    fn part(&self, at: usize) -> [i32; 64]
        requires { at + 8 ≤ self.now.squeezed.residuals }
        ensures { (j : ℕ) → j < 8 → lanes_at result j 8 ≡ lanes_at self.now.squeezed.res.now (at + j) self.now.squeezed.residuals }
    {
        let mut part = [0i32; 64];
        for k in 0..8 {
            let row = load_lanes(self.squeezed.res, at + k * self.squeezed.residuals, 1);
            store_lanes(&mut part, 8 * k, 1, row);
        }
        part
    }

    // The next averages of the last pair, whose own averages are given.
    fn last_next(&self, own: [i32; 8]) -> [i32; 8]
        requires { (length self.now.squeezed.next.now ≡ 0) ⊎ (length self.now.squeezed.next.now ≡ 8) }
        ensures { (k : ℕ) → k < 8 → get_or result k (pos 0) ≡ cond (ltb self.now.squeezed.residuals self.now.squeezed.averages) (get_or self.now.squeezed.avg.now (k * self.now.squeezed.averages + self.now.squeezed.residuals) (pos 0)) (or_else (outer self.now.squeezed.next.now k) (get_or own k (pos 0))) }
    {
        let s = &self.squeezed;
        if s.residuals < s.averages {
            self.averages(s.residuals)
        } else {
            outer_lanes(s.next, own)
        }
    }

    // The four ordinary pairs from pair p on, whose residuals are lanes q to q + 3 of
    // a part. The averages are read anew for each, which costs less than to keep
    // them from one call to the next.
    #[inline(always)]
    fn four_pairs(
        &self,
        part: &[i32],
        prior: [i32; 8],
        p: usize,
        q: usize,
        out: &mut [i32],
    ) -> [i32; 8]
        requires { (length out.old ≡ 8 * (self.now.squeezed.averages + self.now.squeezed.residuals)) × (p + 4 < self.now.squeezed.averages) × (p + 4 ≤ self.now.squeezed.residuals) × (length part.now ≡ 64) × (q + 4 ≤ 8) }
        ensures { (res : List ℤ) → ((j : ℕ) → j < 4 → lanes_at part.now (q + j) 8 ≡ lanes_at res (p + j) self.now.squeezed.residuals) → Ordinary (lines_of true 8 self.now.squeezed.averages self.now.squeezed.residuals self.now.squeezed.avg.now res) (lane prior) (lane result) out.old out.new p 4 }
    {
        let size = self.squeezed.averages + self.squeezed.residuals;
        let avg1 = self.averages(p + 1);
        let avg2 = self.averages(p + 2);
        let avg3 = self.averages(p + 3);
        let a = block::unsqueeze_block(self.averages(p), load_lanes(part, q, 8), avg1, prior);
        let a0 = a[0];
        let a1 = a[1];
        let b = block::unsqueeze_block(avg1, load_lanes(part, q + 1, 8), avg2, a1);
        let b0 = b[0];
        let b1 = b[1];
        store_four(out, p + p, size, a0, a1, b0, b1);
        let c = block::unsqueeze_block(avg2, load_lanes(part, q + 2, 8), avg3, b1);
        let c0 = c[0];
        let c1 = c[1];
        let d = block::unsqueeze_block(avg3, load_lanes(part, q + 3, 8), self.averages(p + 4), c1);
        let d0 = d[0];
        let d1 = d[1];
        store_four(out, p + p + 4, size, c0, c1, d0, d1);
        d1
    }

    // The eight ordinary pairs from pair i on, four in a turn. Their residuals are
    // taken out first, row by row: where the length of a row is a power of two, the
    // cache lines of eight rows fall together into one set of the cache, which holds
    // those of the averages or those of the residuals but not both, and each access
    // would miss.
    #[inline(always)]
    fn part_pairs(&self, prior: [i32; 8], i: usize, out: &mut [i32]) -> [i32; 8]
        requires { (length out.old ≡ 8 * (self.now.squeezed.averages + self.now.squeezed.residuals)) × (i + 8 < self.now.squeezed.averages) × (i + 8 ≤ self.now.squeezed.residuals) }
        ensures { Ordinary (inner (squeeze_of true 8 self.now.squeezed)) (lane prior) (lane result) out.old out.new i 8 }
    {
        let part = self.part(i);
        let mut before = prior;
        for j in 0..2 {
            // Named first: a call's array is not laid into one that a loop carries.
            let last = self.four_pairs(&part, before, i + 4 * j, 4 * j, out);
            before = last;
        }
        before
    }

    // The ordinary pairs from pair `from` up to pair `to`, one by one.
    #[inline(always)]
    fn single_pairs(&self, prior: [i32; 8], from: usize, to: usize, out: &mut [i32]) -> [i32; 8]
        requires { (length out.old ≡ 8 * (self.now.squeezed.averages + self.now.squeezed.residuals)) × (from ≤ to) × (to < self.now.squeezed.averages) × (to ≤ self.now.squeezed.residuals) }
        ensures { Ordinary (inner (squeeze_of true 8 self.now.squeezed)) (lane prior) (lane result) out.old out.new from (to - from) }
    {
        let size = self.squeezed.averages + self.squeezed.residuals;
        let mut before = prior;
        for i in from..to {
            let pairs = block::unsqueeze_block(
                self.averages(i),
                self.residuals(i),
                self.averages(i + 1),
                before,
            );
            let firsts = pairs[0];
            let seconds = pairs[1];
            store_lanes(out, i + i, size, firsts);
            store_lanes(out, i + i + 1, size, seconds);
            before = seconds;
        }
        before
    }

    // The ordinary pairs before pair `to`.
    #[inline(always)]
    fn ordinary_pairs(&self, prior: [i32; 8], to: usize, out: &mut [i32]) -> [i32; 8]
        requires { (length out.old ≡ 8 * (self.now.squeezed.averages + self.now.squeezed.residuals)) × (to < self.now.squeezed.averages) × (to ≤ self.now.squeezed.residuals) }
        ensures { Ordinary (inner (squeeze_of true 8 self.now.squeezed)) (lane prior) (lane result) out.old out.new 0 to }
    {
        let mut before = prior;
        for k in 0..to / 8 {
            // Named first: a call's array is not laid into one that a loop carries.
            let last = self.part_pairs(before, 8 * k, out);
            before = last;
        }
        self.single_pairs(before, to / 8 * 8, to, out)
    }

    // The last pair, and the tails.
    #[inline(always)]
    fn last_lanes(&self, prior: [i32; 8], out: &mut [i32])
        requires { ((length self.now.squeezed.next.now ≡ 0) ⊎ (length self.now.squeezed.next.now ≡ 8)) × (0 < self.now.squeezed.residuals) × (length out.old ≡ 8 * (self.now.squeezed.averages + self.now.squeezed.residuals)) }
        ensures { Ended (squeeze_of true 8 self.now.squeezed) (lane prior) out.old out.new (self.now.squeezed.residuals - 1) }
    {
        let m = self.squeezed.averages;
        let n = self.squeezed.residuals;
        let size = m + n;
        let i = n - 1;
        let own = self.averages(i);
        let following = self.last_next(own);
        let pairs = block::unsqueeze_block(own, self.residuals(i), following, prior);
        let firsts = pairs[0];
        let seconds = pairs[1];
        store_lanes(out, i + i, size, firsts);
        store_lanes(out, i + i + 1, size, seconds);
        if n < m {
            store_lanes(out, n + n, size, self.averages(n));
        }
    }
}

// Eight rows of a squeeze whose sizes fit, with an average or more in each.
#[inline(always)]
fn unsqueeze_fitting(s: &Squeezed<'_>, out: &mut [i32])
    requires { Fitting (squeeze_of true 8 s.now) × (0 < s.now.averages) × (length out.old ≡ 8 * (s.now.averages + s.now.residuals)) }
    ensures { out.new ≡ uncut (squeeze_of true 8 s.now) }
{
    let rows = EightRows { squeezed: *s };
    let own = rows.averages(0);
    if s.residuals == 0 {
        store_lanes(out, 0, s.averages, own);
        return;
    }
    let prior = outer_lanes(s.prev, own);
    let before = rows.ordinary_pairs(prior, s.residuals - 1, out);
    rows.last_lanes(before, out);
}

// The output of a horizontal squeeze of eight rows.
#[inline(always)]
pub fn unsqueeze_eight_rows(s: &Squeezed<'_>, out: &mut [i32])
    ensures { out.new ≡ uncut_into (squeeze_of true 8 s.now) out.old }
{
    if !s.fits(8, out) {
        return;
    }
    if s.averages == 0 {
        return;
    }
    unsqueeze_fitting(s, out);
}
