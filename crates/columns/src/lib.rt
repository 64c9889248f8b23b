// Vertical: lines are columns, and the work goes row by row, so that memory is
// read and written in order: eight neighbouring samples at a time as one block,
// the rest singly. The rows of ordinary pairs first, then the last pair, whose
// next row is chosen, and the row of tails. Where a call tells of samples outside the
// plain range, it looks at each pair of rows after it is made. Total: where sizes or
// slices do not fit the output stays as it was.
#![tactic(auto)]

ghost use Rattle.std.specs.Prelude.{◌≡◌, false, ◌&&◌, ◌||◌, List, [], ◌⊎◌, ◌+◌, ◌-◌, ◌*◌, ◌<◌, ◌≤◌, ℤ, pos, length, get_or, take, drop};
ghost use Rattle.std.proofs.Math.Seq.{paste};
ghost use Rattle.range.specs.Range.{some_outside};
ghost use Rattle.line.specs.Uncut.{squeeze, uncut, Fitting};
ghost use Rattle.line.specs.Pairs.{lines_of, Ordinary, Ended};
ghost use Rattle.line.specs.Into.{uncut_into};
ghost use Rattle.line.specs.Marks.{marked_into};
ghost use Rattle.line.specs.Squeezed.{squeeze_of};
ghost use Rattle.columns.specs.Rows.{row_before, row_after, Apart, Columns};

use line::Squeezed;
use pair::Pair;
use range::Marking;
use tendency::Branching;

// The row before the first: the previous output row or average row 0.
fn row_before<'a>(prev: &'a [i32], avg: &'a [i32], w: usize) -> &'a [i32]
    requires { (w ≤ length avg.now) × ((length prev.now ≡ 0) ⊎ (length prev.now ≡ w)) }
    ensures { result.now ≡ row_before prev.now avg.now w }
{
    if prev.len() == 0 { &avg[0..w] } else { prev }
}

// The average row after the last pair's, which is at `at`: the row of tails,
// else the neighbour line, else the row itself.
fn row_after<'a>(avg: &'a [i32], next: &'a [i32], at: usize, w: usize) -> &'a [i32]
    requires { (at + w ≤ length avg.now) × (at + w < length avg.now → at + w + w ≤ length avg.now) × ((length next.now ≡ 0) ⊎ (length next.now ≡ w)) }
    ensures { result.now ≡ row_after avg.now next.now at w }
{
    let e = at + w;
    if e < avg.len() {
        &avg[e..e + w]
    } else if next.len() == 0 {
        &avg[at..e]
    } else {
        next
    }
}

fn load(s: &[i32], at: usize) -> [i32; 8]
    requires { at + 8 ≤ length s.now }
    ensures { result ≡ take 8 (drop at s.now) }
{
    *s[at..at + 8].as_array().unwrap()
}

fn store(out: &mut [i32], at: usize, b: [i32; 8])
    requires { at + 8 ≤ length out.old }
    ensures { out.new ≡ paste out.old at b (length b) }
{
    buffer::copy(&b, &mut out[at..at + 8]);
}

// Two rows of output at `to` by eights, with the row before them at `from`;
// how many columns were done. The slices of a pair of rows come one by one, since
// a struct of them is made in memory for each pair: columns of 16 samples, 16 of
// them, took 6% more instructions with it and 64 of 64 1.8% (no call slower than
// before). Inlined, as the function below: called with a mark and without, the compiler
// would make each a call for each pair of rows.
#[inline(always)]
fn columns_by_eight(
    avg: &[i32],
    res: &[i32],
    next: &[i32],
    out: &mut [i32],
    from: usize,
    to: usize,
) -> usize
    requires { (length res.now ≡ length avg.now) × (length next.now ≡ length avg.now) × Apart from to (length avg.now) (length out.old) }
    ensures { (result ≤ length avg.now) × (length avg.now < result + 8) × Columns avg.now res.now next.now out.old out.new from to 0 result }
{
    let w = avg.len();
    for k in 0..w / 8 {
        let x = 8 * k;
        let pairs = block::unsqueeze_block(
            load(avg, x),
            load(res, x),
            load(next, x),
            load(out, from + x),
        );
        let firsts = pairs[0];
        let seconds = pairs[1];
        store(out, to + x, firsts);
        store(out, to + w + x, seconds);
    }
    w / 8 * 8
}

// The columns from `start` on, one by one. No twin of the eights but for the loop's head:
// what they read, call and write is of another type, and only the eights say how far they came.
#[inline(always)]
fn columns_singly(
    avg: &[i32],
    res: &[i32],
    next: &[i32],
    out: &mut [i32],
    from: usize,
    to: usize,
    start: usize,
)
    requires { (start ≤ length avg.now) × (length res.now ≡ length avg.now) × (length next.now ≡ length avg.now) × Apart from to (length avg.now) (length out.old) }
    ensures { Columns avg.now res.now next.now out.old out.new from to start (length avg.now) }
{
    let w = avg.len();
    for x in start..w {
        let Pair { first, second, .. } = pair::unsqueeze::<Branching>(
            avg[x],
            res[x],
            next[x],
            out[from + x],
        );
        out[to + x] = first;
        out[to + w + x] = second;
    }
}

// Two rows of output, and whether a residual or an output lies outside the range.
fn row_pair<M: Marking>(
    avg: &[i32],
    res: &[i32],
    next: &[i32],
    out: &mut [i32],
    from: usize,
    to: usize,
) -> bool
    requires { (length res.now ≡ length avg.now) × (length next.now ≡ length avg.now) × Apart from to (length avg.now) (length out.old) }
    ensures { Columns avg.now res.now next.now out.old out.new from to 0 (length avg.now) × (result ≡ (M.marks && (some_outside res.now || some_outside (take (length avg.now + length avg.now) (drop to out.new))))) }
{
    let w = avg.len();
    let x = columns_by_eight(avg, res, next, out, from, to);
    columns_singly(avg, res, next, out, from, to, x);
    M::some_outside(res) | M::some_outside(&out[to..to + w + w])
}

// Pairs of rows that are done: where the row before the next pair stands, and whether
// a residual or an output of theirs lies outside the range.
#[derive(Clone, Copy)]
struct Done {
    from: usize,
    outside: bool,
}

// The first `count` pairs of rows, all ordinary. The row before the first stands
// where its second row will stand, and is read there before it is written.
fn ordinary_pairs<M: Marking>(
    avg: &[i32],
    res: &[i32],
    count: usize,
    w: usize,
    out: &mut [i32],
) -> Done
    requires { (count * w + w ≤ length avg.now) × (count * w ≤ length res.now) × ((count + count) * w + w + w ≤ length out.old) }
    ensures { Ordinary (lines_of false w (count + 1) count avg.now res.now) (λ k. get_or out.old (w + k) (pos 0)) (λ k. get_or out.new (result.from + k) (pos 0)) out.old out.new 0 count × Apart result.from ((count + count) * w) w (length out.old) × (result.outside ≡ (M.marks && (some_outside (take (count * w) res.now) || some_outside (take ((count + count) * w) out.new)))) }
{
    // Places that go on by whole rows. As products of the turn's number they would
    // be no plainer, since the row before the first pair stands apart.
    let mut from = w;
    let mut to = 0;
    let mut a = 0;
    let mut outside = false;
    for _ in 0..count {
        let e = a + w;
        outside |= row_pair::<M>(&avg[a..e], &res[a..e], &avg[e..e + w], out, from, to);
        from = to + w;
        to = from + w;
        a = e;
    }
    Done { from, outside }
}

// The last pair of rows, with the row before it at `from`, and the row of tails; whether
// a sample of theirs lies outside the range. A tail is looked at where it is copied.
fn last_rows<M: Marking>(s: &Squeezed<'_>, w: usize, from: usize, out: &mut [i32]) -> bool
    requires { Fitting (squeeze false w s.now.averages s.now.residuals s.now.avg.now s.now.res.now s.now.next.now []) × (0 < s.now.residuals) × (length out.old ≡ w * (s.now.averages + s.now.residuals)) × Apart from ((s.now.residuals - 1 + (s.now.residuals - 1)) * w) w (length out.old) }
    ensures { ((prev : List ℤ) → Ended (squeeze false w s.now.averages s.now.residuals s.now.avg.now s.now.res.now s.now.next.now prev) (λ k. get_or out.old (from + k) (pos 0)) out.old out.new (s.now.residuals - 1)) × (result ≡ (M.marks && (some_outside (drop ((s.now.residuals - 1) * w) s.now.res.now) || some_outside (drop ((s.now.residuals - 1 + (s.now.residuals - 1)) * w) out.new)))) }
{
    let avg = s.avg;
    let res = s.res;
    let m = s.averages;
    let n = s.residuals;
    let e = res.len();
    let a = e - w;
    let outside = row_pair::<M>(
        &avg[a..e],
        &res[a..e],
        row_after(avg, s.next, a, w),
        out,
        from,
        a + a,
    );
    if n < m {
        buffer::copy(&avg[e..], &mut out[e + e..]);
        outside | M::some_outside(&avg[e..])
    } else {
        outside
    }
}

// The columns of a squeeze whose sizes fit, with a sample or more; whether a residual or
// an output lies outside the range.
fn unsqueeze_fitting<M: Marking>(s: &Squeezed<'_>, w: usize, out: &mut [i32]) -> bool
    requires { Fitting (squeeze_of false w s.now) × (0 < s.now.averages) × (0 < w) × (length out.old ≡ w * (s.now.averages + s.now.residuals)) }
    ensures { (out.new ≡ uncut (squeeze_of false w s.now)) × (result ≡ (M.marks && (some_outside s.now.res.now || some_outside (uncut (squeeze_of false w s.now))))) }
{
    let n = s.residuals;
    if n == 0 {
        buffer::copy(s.avg, out);
        return M::some_outside(s.avg);
    }
    buffer::copy(row_before(s.prev, s.avg, w), &mut out[w..w + w]);
    let pairs = ordinary_pairs::<M>(s.avg, s.res, n - 1, w, out);
    pairs.outside | last_rows::<M>(s, w, pairs.from, out)
}

// The output of a vertical squeeze of so many columns, and its mark.
pub fn unsqueeze_columns<M: Marking>(s: &Squeezed<'_>, w: usize, out: &mut [i32]) -> bool
    ensures { (out.new ≡ uncut_into (squeeze_of false w s.now) out.old) × (result ≡ (M.marks && marked_into (squeeze_of false w s.now) out.old)) }
{
    if !s.fits(w, out) {
        return false;
    }
    if out.len() == 0 {
        return false;
    }
    M::read_samples(s.avg);
    unsqueeze_fitting::<M>(s, w, out) | s.outers_outside::<M>()
}
