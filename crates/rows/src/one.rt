// One row: the ordinary pairs, then the last pair, whose next average is chosen,
// and the tail. As eight rows go (crate eight_rows), but sample by sample: those are
// stored transposed and their residuals taken out in parts, for the vector code and
// the cache, which one row needs not, and one function over both would be no plainer.
ghost use Rattle.std.specs.Prelude.{◌≡◌, true, cond, List, ◌+◌, ◌-◌, ◌<◌, ◌≤◌, ltb, ℤ, pos, length, get_or};
ghost use Rattle.line.specs.Line.{or_else};
ghost use Rattle.line.specs.Uncut.{squeeze, uncut, Fitting, outer};
ghost use Rattle.line.specs.Pairs.{lines_of, Ordinary, Ended};

use line::Squeezed;
use pair::Pair;
use tendency::Branching;

// The sample of an outer line, or what stands in for it.
fn outer_sample(line: &[i32], other: i32) -> i32
    ensures { result ≡ or_else (outer line.now 0) other }
{
    if line.len() == 0 { other } else { line[0] }
}

// A row, with an average or more for each residual. Its output is lent to each
// method, since a struct that holds a `&mut` would have to say that it is still the
// caller's.
#[derive(Drop)]
struct OneRow<'a> {
    squeezed: Squeezed<'a>,
    ghost low: { length squeezed.res.now ≤ length squeezed.avg.now },
}

impl OneRow<'_> {
    // The next average of the last pair.
    fn last_next(&self) -> i32
        requires { 0 < length self.now.squeezed.res.now }
        ensures { result ≡ cond (ltb (length self.now.squeezed.res.now) (length self.now.squeezed.avg.now)) (get_or self.now.squeezed.avg.now (length self.now.squeezed.res.now) (pos 0)) (or_else (outer self.now.squeezed.next.now 0) (get_or self.now.squeezed.avg.now (length self.now.squeezed.res.now - 1) (pos 0))) }
    {
        let s = &self.squeezed;
        let n = s.res.len();
        if n < s.avg.len() {
            s.avg[n]
        } else {
            outer_sample(s.next, s.avg[n - 1])
        }
    }

    // The ordinary pairs before pair `to`.
    fn ordinary_pairs(&self, prior: i32, to: usize, out: &mut [i32]) -> i32
        requires { (to < length self.now.squeezed.avg.now) × (to ≤ length self.now.squeezed.res.now) × (length out.old ≡ length self.now.squeezed.avg.now + length self.now.squeezed.res.now) }
        ensures { Ordinary (lines_of true 1 (length self.now.squeezed.avg.now) (length self.now.squeezed.res.now) self.now.squeezed.avg.now self.now.squeezed.res.now) (λ _. prior) (λ _. result) out.old out.new 0 to }
    {
        let s = &self.squeezed;
        let mut before = prior;
        for i in 0..to {
            let Pair { first, second, .. } = pair::unsqueeze::<Branching>(
                s.avg[i],
                s.res[i],
                s.avg[i + 1],
                before,
            );
            out[i + i] = first;
            out[i + i + 1] = second;
            before = second;
        }
        before
    }

    // The last pair, and the tail.
    fn last_samples(&self, prior: i32, out: &mut [i32])
        requires { (0 < length self.now.squeezed.res.now) × (length out.old ≡ length self.now.squeezed.avg.now + length self.now.squeezed.res.now) }
        ensures { (prev : List ℤ) → Ended (squeeze true 1 (length self.now.squeezed.avg.now) (length self.now.squeezed.res.now) self.now.squeezed.avg.now self.now.squeezed.res.now self.now.squeezed.next.now prev) (λ _. prior) out.old out.new (length self.now.squeezed.res.now - 1) }
    {
        let s = &self.squeezed;
        let n = s.res.len();
        let i = n - 1;
        let Pair { first, second, .. } = pair::unsqueeze::<Branching>(
            s.avg[i],
            s.res[i],
            self.last_next(),
            prior,
        );
        out[i + i] = first;
        out[i + i + 1] = second;
        if n < s.avg.len() {
            out[n + n] = s.avg[n];
        }
    }
}

// One row, of so many averages and residuals as its slices have. Inlined, as eight are.
#[inline(always)]
pub(crate) fn one_row(s: &Squeezed<'_>, out: &mut [i32])
    requires { Fitting (squeeze true 1 (length s.now.avg.now) (length s.now.res.now) s.now.avg.now s.now.res.now s.now.next.now s.now.prev.now) × (0 < length s.now.avg.now) × (length out.old ≡ length s.now.avg.now + length s.now.res.now) }
    ensures { out.new ≡ uncut (squeeze true 1 (length s.now.avg.now) (length s.now.res.now) s.now.avg.now s.now.res.now s.now.next.now s.now.prev.now) }
{
    let n = s.res.len();
    if n == 0 {
        out[0] = s.avg[0];
        return;
    }
    let row = OneRow { squeezed: *s };
    let before = row.ordinary_pairs(outer_sample(s.prev, s.avg[0]), n - 1, out);
    row.last_samples(before, out);
}
