// The tile call (the Rust's `do_hsqueeze_step` and `do_vsqueeze_step`): a rectangle of
// samples from its averages and residuals, with a neighbour line on either side or
// none, and whether it leaves the plain range. Total: the areas, the sizes and the
// slices' lengths are judged in that order, and after a refusal the output slice is
// untouched.
#![tactic(auto)]

ghost use Rattle.std.specs.Prelude.{◌≡◌, ◌&&◌};
ghost use Rattle.range.specs.Range.{mark_of};
ghost use Rattle.line.specs.Into.{uncut_into};
ghost use Rattle.line.specs.Marks.{marked_into};
ghost use Rattle.numbers.specs.Numbers.{answer_of};
ghost use Rattle.tile.specs.Call as Call;

use line::Squeezed;
use numbers::{MAX_SAMPLES, MAX_SIDE, Refusal};
use range::Marking;

// Width and height of a rectangle.
#[derive(Clone, Copy, PartialEq, Eq, Debug)]
pub struct Sides {
    pub width: usize,
    pub height: usize,
}

impl Sides {
    // Not too many samples.
    fn area_allowed(self) -> bool
        ensures { result ≡ Call.area_allowed self }
    {
        self.width
            .checked_mul(self.height)
            .is_some_and(|area| area <= MAX_SAMPLES)
    }

    // The side along a squeeze.
    fn along(self, horizontal: bool) -> usize
        ensures { result ≡ Call.along horizontal self }
    {
        if horizontal { self.width } else { self.height }
    }

    // The side that crosses it.
    fn across(self, horizontal: bool) -> usize
        ensures { result ≡ Call.across horizontal self }
    {
        self.along(!horizontal)
    }

    #[tactic(auto, unfolding(crate::specs::Call::sides_small))]
    fn is_small(self) -> bool
        ensures { result ≡ Call.sides_small self }
    {
        (self.width <= MAX_SIDE) & (self.height <= MAX_SIDE)
    }
}

// The sizes of averages, residuals and output, without the outer lines.
fn sides_fit(horizontal: bool, a: Sides, r: Sides, o: Sides) -> bool
    ensures { result ≡ Call.sides_fit horizontal a r o }
{
    if !(a.is_small() & (r.is_small() & o.is_small())) {
        return false;
    }
    let m = a.along(horizontal);
    let n = r.along(horizontal);
    let crossing = a.across(horizontal);
    ((m == n) | (m == n + 1))
        & ((o.along(horizontal) == m + n)
            & ((r.across(horizontal) == crossing) & (o.across(horizontal) == crossing)))
}

// The squeeze's output from its averages and residuals, and its mark, where sizes fit.
fn unsqueeze<'a, M: Marking>(
    horizontal: bool,
    a: Sides,
    r: Sides,
    avg: &'a [i32],
    res: &'a [i32],
    next: &'a [i32],
    prev: &'a [i32],
    out: &mut [i32],
) -> bool
    ensures { (out.new ≡ uncut_into (Call.squeeze_on horizontal a r avg.now res.now next.now prev.now) out.old) × (result ≡ (M.marks && marked_into (Call.squeeze_on horizontal a r avg.now res.now next.now prev.now) out.old)) }
{
    let s = Squeezed {
        averages: a.along(horizontal),
        residuals: r.along(horizontal),
        avg,
        res,
        next,
        prev,
    };
    let lines = a.across(horizontal);
    if horizontal {
        rows::unsqueeze_rows::<M>(&s, lines, out)
    } else {
        columns::unsqueeze_columns::<M>(&s, lines, out)
    }
}

// The questions of a call in their order.
#[tactic(auto, using(crate::proofs::Fitted::area_small))]
pub fn judge_tile(
    horizontal: bool,
    avgs: Sides,
    ress: Sides,
    outs: Sides,
    avg: &[i32],
    res: &[i32],
    next: &[i32],
    prev: &[i32],
    out: &[i32],
) -> Result<(), Refusal>
    ensures { answer_of result ≡ Call.answer (Call.call_on horizontal avgs ress outs avg.now res.now next.now prev.now out.now) }
{
    if !(avgs.area_allowed() & (ress.area_allowed() & outs.area_allowed())) {
        return Err(Refusal::Samples);
    }
    let crossing = avgs.across(horizontal);
    if !(sides_fit(horizontal, avgs, ress, outs)
        & (line::outer_fits(crossing, next) & line::outer_fits(crossing, prev)))
    {
        return Err(Refusal::Sizes);
    }
    if !((avg.len() == avgs.width * avgs.height)
        & ((res.len() == ress.width * ress.height) & (out.len() == outs.width * outs.height)))
    {
        return Err(Refusal::Length);
    }
    Ok(())
}

// A tile of averages, residuals and samples of output, each with the sides of its
// rectangle. `next` and `prev` are the next average line and the previous output
// line, or empty. Sides and slices come apart, as the C function has them.
pub fn squeeze_tile<'a, M: Marking>(
    horizontal: bool,
    avgs: Sides,
    ress: Sides,
    outs: Sides,
    avg: &'a [i32],
    res: &[i32],
    next: &'a [i32],
    prev: &'a [i32],
    out: &mut [i32],
) -> Result<bool, Refusal>
    ensures { (answer_of result ≡ Call.answer (Call.call_on horizontal avgs ress outs avg.now res.now next.now prev.now out.old)) × (out.new ≡ Call.after (Call.call_on horizontal avgs ress outs avg.now res.now next.now prev.now out.old)) × (mark_of result ≡ (M.marks && Call.call_mark (Call.call_on horizontal avgs ress outs avg.now res.now next.now prev.now out.old))) }
{
    judge_tile(horizontal, avgs, ress, outs, avg, res, next, prev, out)?;
    Ok(unsqueeze::<M>(horizontal, avgs, ress, avg, res, next, prev, out))
}
