// Horizontal: lines are rows. Eight rows at a time go through the block, the
// rest singly. It tells whether the squeeze leaves the plain range: the residuals and
// the output of the rows are looked at while they are in the cache. Total: where sizes
// or slices do not fit the output stays as it was, and nothing is told.
#![tactic(auto)]

mod one;

ghost use Rattle.std.specs.Prelude.{◌≡◌, true, ◌&&◌, ◌||◌, ◌++◌, ◌⊎◌, ◌+◌, ◌-◌, ◌*◌, ◌<◌, ◌≤◌, length, take, drop};
ghost use Rattle.range.specs.Range.{some_outside};
ghost use Rattle.line.specs.Uncut.{uncut, Fitting};
ghost use Rattle.line.specs.Into.{uncut_into};
ghost use Rattle.line.specs.Marks.{marked_into};
ghost use Rattle.line.specs.Squeezed.{squeeze_of};
ghost use Rattle.rows.specs.Parts.{IsPart, rows_outside};

use crate::one::one_row;
use line::Squeezed;
use range::Marking;

// A part of an outer line, which may be absent.
fn outer_part(line: &[i32], from: usize, to: usize) -> &[i32]
    requires { (from ≤ to) × ((length line.now ≡ 0) ⊎ (to ≤ length line.now)) }
    ensures { result.now ≡ take (to - from) (drop from line.now) }
{
    if line.len() == 0 {
        line
    } else {
        &line[from..to]
    }
}

// Rows `from` up to `to`, with their samples of the outer lines.
#[tactic(auto, using(crate::proofs::Strips::row_end))]
fn part_of<'a>(s: &Squeezed<'a>, from: usize, to: usize) -> Squeezed<'a>
    requires { (from ≤ to) × (to * s.now.averages ≤ length s.now.avg.now) × (to * s.now.residuals ≤ length s.now.res.now) × ((length s.now.next.now ≡ 0) ⊎ (to ≤ length s.now.next.now)) × ((length s.now.prev.now ≡ 0) ⊎ (to ≤ length s.now.prev.now)) }
    ensures { IsPart s.now result from to }
{
    let m = s.averages;
    let n = s.residuals;
    Squeezed {
        averages: m,
        residuals: n,
        avg: &s.avg[from * m..to * m],
        res: &s.res[from * n..to * n],
        next: outer_part(s.next, from, to),
        prev: outer_part(s.prev, from, to),
    }
}

// Whether a residual of rows, or a sample made of them, lies outside the plain range.
fn part_outside<M: Marking>(part: &Squeezed<'_>, made: &[i32]) -> bool
    ensures { result ≡ (M.marks && (some_outside part.now.res.now || some_outside made.now)) }
{
    M::some_outside(part.res) | M::some_outside(made)
}

// Rows by eights; how many were done, and whether they leave the plain range.
#[tactic(auto, using(crate::proofs::Strips::row_start, crate::proofs::Strips::row_end, crate::proofs::Strips::size_fits, crate::proofs::Marks::rows_none))]
fn rows_by_eight<M: Marking>(s: &Squeezed<'_>, lines: usize, out: &mut [i32]) -> (usize, bool)
    requires { Fitting (squeeze_of true lines s.now) × (0 < s.now.averages) × (length out.old ≡ lines * (s.now.averages + s.now.residuals)) }
    ensures { (result.0 ≤ lines) × (lines < result.0 + 8) × (out.new ≡ take (result.0 * (s.now.averages + s.now.residuals)) (uncut (squeeze_of true lines s.now)) ++ drop (result.0 * (s.now.averages + s.now.residuals)) out.old) × (result.1 ≡ (M.marks && rows_outside (squeeze_of true lines s.now) 0 result.0)) }
{
    let mut outside = false;
    for k in 0..lines / 8 {
        let size = s.averages + s.residuals;
        let y = 8 * k;
        let e = y + 8;
        let part = part_of(s, y, e);
        let made = &mut out[y * size..e * size];
        eight_rows::unsqueeze_eight_rows(&part, made);
        outside |= part_outside::<M>(&part, made);
    }
    (lines / 8 * 8, outside)
}

// The rows from the given one on, one by one, and whether they leave the plain range. One
// function for these and the eights, with the step and the call as arguments, was tried: a
// clause longer than this loop has to say what a call gives, and the products of step and
// turn left goals that 8 and 1 have not.
#[tactic(auto, using(crate::proofs::Strips::row_start, crate::proofs::Strips::row_end, crate::proofs::Strips::size_fits))]
fn rows_singly<M: Marking>(s: &Squeezed<'_>, lines: usize, from: usize, out: &mut [i32]) -> bool
    requires { Fitting (squeeze_of true lines s.now) × (0 < s.now.averages) × (length out.old ≡ lines * (s.now.averages + s.now.residuals)) × (from ≤ lines) }
    ensures { (out.new ≡ take (from * (s.now.averages + s.now.residuals)) out.old ++ drop (from * (s.now.averages + s.now.residuals)) (uncut (squeeze_of true lines s.now))) × (result ≡ (M.marks && rows_outside (squeeze_of true lines s.now) from lines)) }
{
    let mut outside = false;
    for y in from..lines {
        let size = s.averages + s.residuals;
        let e = y + 1;
        let part = part_of(s, y, e);
        let made = &mut out[y * size..e * size];
        one_row(&part, made);
        outside |= part_outside::<M>(&part, made);
    }
    outside
}

// The rows of a squeeze whose sizes fit, with a sample or more; whether a residual or an
// output lies outside the range. Rows of one sample are their averages, copied at once.
fn unsqueeze_fitting<M: Marking>(s: &Squeezed<'_>, lines: usize, out: &mut [i32]) -> bool
    requires { Fitting (squeeze_of true lines s.now) × (0 < s.now.averages) × (length out.old ≡ lines * (s.now.averages + s.now.residuals)) }
    ensures { (out.new ≡ uncut (squeeze_of true lines s.now)) × (result ≡ (M.marks && (some_outside s.now.res.now || some_outside (uncut (squeeze_of true lines s.now))))) }
{
    if s.residuals == 0 {
        buffer::copy(s.avg, out);
        return M::some_outside(s.avg);
    }
    let (done, eights) = rows_by_eight::<M>(s, lines, out);
    eights | rows_singly::<M>(s, lines, done, out)
}

// The output of a horizontal squeeze of so many rows, and its mark.
pub fn unsqueeze_rows<M: Marking>(s: &Squeezed<'_>, lines: usize, out: &mut [i32]) -> bool
    ensures { (out.new ≡ uncut_into (squeeze_of true lines s.now) out.old) × (result ≡ (M.marks && marked_into (squeeze_of true lines s.now) out.old)) }
{
    if !s.fits(lines, out) {
        return false;
    }
    if out.len() == 0 {
        return false;
    }
    M::read_samples(s.avg);
    unsqueeze_fitting::<M>(s, lines, out) | s.outers_outside::<M>()
}
