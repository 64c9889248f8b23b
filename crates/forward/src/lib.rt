// The writer's averages and residuals of a channel, in one slice, the averages
// first: total, a call whose slices do not fit leaves the output as it was. Both
// are written together and row by row, so that a sample is read from memory once,
// along the rows of the samples that the entries are made of, in either direction.
// The mark, whether a pair or a tail leaves the plain range, is told by the samples
// and the residuals alone: an average lies between its two samples where these lie
// inside (`written_by_samples` of crate line). They are looked at a row at a time,
// right after the row is made, by loops of their own.
#![tactic(auto)]

ghost use Rattle.std.specs.Prelude.{◌≡◌, Bool, ◌&&◌, ◌||◌, ℕ, ℤ, pos, true, false, ◌++◌, ◌+◌, ◌*◌, ◌/◌, ◌<◌, ◌≤◌, length, get_or, take, drop, min, ◌-◌};
ghost use Rattle.range.specs.Range.{some_outside};
ghost use Rattle.line.specs.Uncut.{table};
ghost use Rattle.line.specs.Forward.{average_count, residual_count, average_at, next_at, prev_at, residual_at, averages_of, residuals_of};
ghost use Rattle.forward.specs.Into.{slices_fit, squeezed_into, marked_into};
ghost use Rattle.forward.specs.Rows.{along, Filled, average_entry, residual_entry, Reach, Read, average_over, residual_over, next_first};

use numbers::MAX_SIDE;
use range::Marking;
use tendency::{Branching, Branchless};

// So many rows of `width` samples each, in one slice: the lines of a horizontal
// squeeze, or sample i of each line of a vertical one in row i.
#[derive(Drop)]
struct Rows<'a> {
    count: usize,
    width: usize,
    samples: &'a [i32],
    ghost whole: { length samples.now ≡ count * width },
}

impl<'a> Rows<'a> {
    fn row(&self, j: usize) -> &'a [i32]
        requires { j < self.now.count }
        ensures value { result.now ≡ take self.now.width (drop (j * self.now.width) self.now.samples.now) }
        ensures wide { length result.now ≡ self.now.width }
    {
        &self.samples[j * self.width..j * self.width + self.width]
    }
}

// What stands before the pairs of a stretch.
trait Before {
    // what stands before the pair at a place, whose average is given
    ghost value: { Self → ℕ → ℤ → ℤ };
    // the places that have it
    ghost has: { Self → ℕ → Type 0 };

    fn at(&self, i: usize, average: i32) -> i32
        requires { has self.now i }
        ensures { result ≡ value self.now i average };
}

// The sample there.
#[derive(Drop)]
struct Neighbours<'a> {
    samples: &'a [i32],
}

impl Before for Neighbours<'_> {
    ghost value = { λ s i average. get_or s.samples.now i (pos 0) };

    ghost has = { λ s i. i < length s.samples.now };

    fn at(&self, i: usize, _average: i32) -> i32 {
        self.samples[i]
    }
}

// The own average, where pairs begin their lines.
#[derive(Drop)]
struct OwnAverage;

impl Before for OwnAverage {
    ghost value = { λ s i average. average };

    ghost has = { λ s i. Unit {0} };

    fn at(&self, _i: usize, average: i32) -> i32 {
        average
    }
}

// A run of `count` pairs of a row, `STEP` from each other: `first` and `second`
// have their samples, `third` and `fourth` the pair after each or what stands for
// that. The loop over them asks neither for the direction nor for a line's end, so
// that it can become vector code; the compiler knows STEP, else the samples would
// be gathered one by one.
#[derive(Drop)]
struct Stretch<'a, const STEP: usize> {
    count: usize,
    first: &'a [i32],
    second: &'a [i32],
    third: &'a [i32],
    fourth: &'a [i32],
    ghost reach: { Reach count STEP first.now × Reach count STEP second.now × Reach count STEP third.now × Reach count STEP fourth.now },
}

impl<const STEP: usize> Stretch<'_, STEP> {
    // Only what was read is known to be 32-bit samples, hence the last fact of the
    // contract, which a caller needs that has a sample twice stand for a pair.
    #[tactic(auto, using(crate::proofs::Filled::filled_all))]
    fn squeeze<B: Before + Drop>(&self, before: B, averages: &mut [i32], residuals: &mut [i32])
        requires { ((x : ℕ) → x < self.now.count → B.has before (x * STEP)) × (length averages.old ≡ self.now.count) × (length residuals.old ≡ self.now.count) }
        ensures made { averages.new ≡ table (average_over self.now.first.now self.now.second.now STEP) 0 self.now.count }
        ensures left { residuals.new ≡ table (residual_over (B.value before) self.now.first.now self.now.second.now self.now.third.now self.now.fourth.now STEP) 0 self.now.count }
        ensures read { Read self.now.count STEP self.now.third.now }
    {
        for x in 0..self.count {
            let i = x * STEP;
            let own = pair::squeeze(self.first[i], self.second[i]);
            let next = pair::squeeze(self.third[i], self.fourth[i]);
            averages[x] = own.average;
            let rest = pair::residual::<Branchless>(own, next.average, before.at(i, own.average));
            residuals[x] = rest.residual;
        }
    }
}

// Average i of a line, whose odd last sample is the tail. This function and the
// three below stand beside `Stretch`, whose loop asks for no end of a line: the
// rule's cases there are theirs.
#[tactic(auto, unfolding(line::specs::Forward::average_at))]
fn average_at(line: &[i32], i: usize) -> i32
    requires { i + i < length line.now }
    ensures { result ≡ average_at (along line.now) (length line.now) i }
{
    let first = line[i + i];
    if i + i + 1 < line.len() {
        pair::squeeze(first, line[i + i + 1]).average
    } else {
        first
    }
}

// The average after that of pair i, which is given.
#[tactic(auto, unfolding(line::specs::Forward::next_at))]
fn next_at(line: &[i32], i: usize, own: i32) -> i32
    requires { (i + i + 1 < length line.now) × (own ≡ average_at (along line.now) (length line.now) i) }
    ensures { result ≡ next_at (along line.now) (length line.now) i }
{
    if i + i + 2 < line.len() {
        average_at(line, i + 1)
    } else {
        own
    }
}

// The sample before pair i, whose average is given.
#[tactic(auto, unfolding(line::specs::Forward::prev_at))]
fn prev_at(line: &[i32], i: usize, own: i32) -> i32
    requires { (i + i + 1 < length line.now) × (own ≡ average_at (along line.now) (length line.now) i) }
    ensures { result ≡ prev_at (along line.now) (length line.now) i }
{
    if i == 0 { own } else { line[i + i - 1] }
}

#[tactic(auto, unfolding(line::specs::Forward::residual_at, pair::specs::Pair::residual, line::specs::Forward::average_at))]
#[inline(always)]
fn residual_at(line: &[i32], i: usize) -> i32
    requires { i + i + 1 < length line.now }
    ensures { result ≡ residual_at (along line.now) (length line.now) i }
{
    let own = pair::squeeze(line[i + i], line[i + i + 1]);
    let next = next_at(line, i, own.average);
    let prev = prev_at(line, i, own.average);
    pair::residual::<Branching>(own, next, prev).residual
}

// A line: the first and the last pair stand at its ends, and its tail is the last
// average. A residual is made before its average is stored, so that the compiler
// makes the pair once. Loops with a mark and without call it, so that it is inlined,
// and `residual_at` with it: calls would cost short lines up to a sixth of their
// instructions.
#[inline(always)]
fn squeeze_line(line: &[i32], averages: &mut [i32], residuals: &mut [i32])
    requires { (length averages.old ≡ average_count (length line.now)) × (length residuals.old ≡ residual_count (length line.now)) }
    ensures made { averages.new ≡ table (average_at (along line.now) (length line.now)) 0 (average_count (length line.now)) }
    ensures left { residuals.new ≡ table (residual_at (along line.now) (length line.now)) 0 (residual_count (length line.now)) }
{
    let n = line.len() / 2;
    if 0 < n {
        let residual = residual_at(line, 0);
        averages[0] = average_at(line, 0);
        residuals[0] = residual;
    }
    if 2 < n {
        let inner = Stretch::<2> {
            count: n - 2,
            first: &line[2..],
            second: &line[3..],
            third: &line[4..],
            fourth: &line[5..],
        };
        inner.squeeze(
            Neighbours {
                samples: &line[1..],
            },
            &mut averages[1..n - 1],
            &mut residuals[1..n - 1],
        );
    }
    if 1 < n {
        let residual = residual_at(line, n - 1);
        averages[n - 1] = average_at(line, n - 1);
        residuals[n - 1] = residual;
    }
    if n + n < line.len() {
        averages[n] = line[n + n];
    }
}

// The position of the first sample of what stands for the pair after pair i: that
// pair, or the tail twice, since the average of a sample with itself is that
// sample, or pair i itself where the line ends with it. So a row at the lines'
// ends is a stretch too, and its loop asks nothing.
#[tactic(auto, unfolding(crate::specs::Rows::next_first))]
fn next_first(size: usize, i: usize) -> usize
    requires { i + i + 1 < size }
    ensures value { result ≡ next_first size i }
    ensures inside { result < size }
{
    if i + i + 2 < size { i + i + 2 } else { i + i }
}

impl Rows<'_> {
    // All lines, and whether a sample of theirs or a residual lies outside the plain
    // range; those of one sample are tails alone.
    #[tactic(auto, using(crate::proofs::Entries::row_room, crate::proofs::Entries::halves, crate::proofs::Fitted::tails_alone, crate::proofs::Fitted::no_residuals, crate::proofs::Fitted::averages_all, crate::proofs::Fitted::residuals_all, buffer::proofs::Overwritten::copied_all))]
    fn squeeze_along<M: Marking>(&self, averages: &mut [i32], residuals: &mut [i32]) -> bool
        requires { (length averages.old ≡ self.now.count * average_count self.now.width) × (length residuals.old ≡ self.now.count * residual_count self.now.width) }
        ensures made { averages.new ≡ averages_of true self.now.count self.now.width self.now.samples.now }
        ensures left { residuals.new ≡ residuals_of true self.now.count self.now.width self.now.samples.now }
        ensures told { result ≡ (M.marks && (some_outside residuals.new || some_outside self.now.samples.now)) }
    {
        if self.width < 2 {
            buffer::copy(self.samples, averages);
            return M::some_outside(self.samples);
        }
        let rest = self.width / 2;
        let count = self.width - rest;
        let mut outside = false;
        for y in 0..self.count {
            let line = self.row(y);
            let left = &mut residuals[y * rest..y * rest + rest];
            squeeze_line(line, &mut averages[y * count..y * count + count], left);
            outside |= M::some_outside(left) | M::some_outside(line);
        }
        outside
    }

    // Pair y of all lines of a vertical squeeze, with the positions of what stands for
    // the pair after it, and whether a sample of it or a residual lies outside.
    #[tactic(auto, using(crate::proofs::Nexts::first_inside, crate::proofs::Stretches::row_averages, crate::proofs::Stretches::row_residuals, crate::proofs::Entries::prev_first))]
    #[inline(always)]
    fn squeeze_row<M: Marking>(
        &self,
        y: usize,
        third: usize,
        fourth: usize,
        averages: &mut [i32],
        residuals: &mut [i32],
    ) -> bool
        requires pair { y + y + 1 < self.now.count }
        requires after { (third ≡ next_first self.now.count y) × (fourth ≡ min (third + 1) (self.now.count - 1)) }
        requires room { (length averages.old ≡ self.now.width) × (length residuals.old ≡ self.now.width) }
        ensures made { averages.new ≡ table (average_entry false self.now.width self.now.count self.now.samples.now) (y * self.now.width) self.now.width }
        ensures left { residuals.new ≡ table (residual_entry false self.now.width self.now.count self.now.samples.now) (y * self.now.width) self.now.width }
        ensures told { result ≡ (M.marks && (some_outside residuals.new || some_outside (take (self.now.width + self.now.width) (drop ((y + y) * self.now.width) self.now.samples.now)))) }
    {
        let pairs = Stretch::<1> {
            count: self.width,
            first: self.row(y + y),
            second: self.row(y + y + 1),
            third: self.row(third),
            fourth: self.row(fourth),
        };
        if y == 0 {
            pairs.squeeze(OwnAverage, averages, residuals);
        } else {
            let samples = self.row(y + y - 1);
            pairs.squeeze(Neighbours { samples }, averages, residuals);
        }
        let start = (y + y) * self.width;
        M::some_outside(residuals)
            | M::some_outside(&self.samples[start..start + (self.width + self.width)])
    }

    // The same of a pair that may stand at the lines' ends.
    fn end_row<M: Marking>(&self, y: usize, averages: &mut [i32], residuals: &mut [i32]) -> bool
        requires pair { y + y + 1 < self.now.count }
        requires room { (length averages.old ≡ self.now.width) × (length residuals.old ≡ self.now.width) }
        ensures made { averages.new ≡ table (average_entry false self.now.width self.now.count self.now.samples.now) (y * self.now.width) self.now.width }
        ensures left { residuals.new ≡ table (residual_entry false self.now.width self.now.count self.now.samples.now) (y * self.now.width) self.now.width }
        ensures told { result ≡ (M.marks && (some_outside residuals.new || some_outside (take (self.now.width + self.now.width) (drop ((y + y) * self.now.width) self.now.samples.now)))) }
    {
        let third = next_first(self.count, y);
        let fourth = (third + 1).min(self.count - 1);
        self.squeeze_row::<M>(y, third, fourth, averages, residuals)
    }

    // The rows of pairs. The first and the last are left out of the loop and a turn is
    // no call, so that all turns read at places of one form: the compiler then tests
    // once, before the first turn, that all that is read lies apart from all that is
    // written.
    #[tactic(auto, using(crate::proofs::Filled::first_row), unfolding(crate::specs::Rows::next_first))]
    fn pairs_across<M: Marking>(&self, averages: &mut [i32], residuals: &mut [i32]) -> bool
        requires { (length averages.old ≡ self.now.width * average_count self.now.count) × (length residuals.old ≡ self.now.width * residual_count self.now.count) }
        ensures made { Filled (average_entry false self.now.width self.now.count self.now.samples.now) (self.now.count / 2 * self.now.width) averages.new }
        ensures left { Filled (residual_entry false self.now.width self.now.count self.now.samples.now) (self.now.count / 2 * self.now.width) residuals.new }
        ensures told { result ≡ (M.marks && (some_outside (take (self.now.count / 2 * self.now.width) residuals.new) || some_outside (take ((self.now.count / 2 + self.now.count / 2) * self.now.width) self.now.samples.now))) }
    {
        let width = self.width;
        let n = self.count / 2;
        if n == 0 {
            return false;
        }
        let mut outside = self.end_row::<M>(0, &mut averages[..width], &mut residuals[..width]);
        if n == 1 {
            return outside;
        }
        let last = n - 1;
        for y in 1..last {
            outside |= self.squeeze_row::<M>(
                y,
                y + y + 2,
                y + y + 3,
                &mut averages[y * width..y * width + width],
                &mut residuals[y * width..y * width + width],
            );
        }
        outside
            | self.end_row::<M>(
                last,
                &mut averages[last * width..last * width + width],
                &mut residuals[last * width..last * width + width],
            )
    }

    // The rows of pairs, then the row of tails.
    #[tactic(auto, using(crate::proofs::Fitted::all_averages, crate::proofs::Fitted::all_residuals))]
    fn squeeze_across<M: Marking>(&self, averages: &mut [i32], residuals: &mut [i32]) -> bool
        requires { (length averages.old ≡ self.now.width * average_count self.now.count) × (length residuals.old ≡ self.now.width * residual_count self.now.count) }
        ensures made { averages.new ≡ averages_of false self.now.width self.now.count self.now.samples.now }
        ensures left { residuals.new ≡ residuals_of false self.now.width self.now.count self.now.samples.now }
        ensures told { result ≡ (M.marks && (some_outside residuals.new || some_outside self.now.samples.now)) }
    {
        let outside = self.pairs_across::<M>(averages, residuals);
        let n = self.count / 2;
        if n + n < self.count {
            let tails = self.row(n + n);
            buffer::copy(tails, &mut averages[n * self.width..]);
            return outside | M::some_outside(tails);
        }
        outside
    }
}

// No side above the limit, so that the lengths can be told. It takes a call's own
// numbers and slices, since only those that fit are rows.
#[tactic(auto, unfolding(crate::specs::Into::slices_fit))]
fn slices_fit(lines: usize, size: usize, xs: &[i32], out: &[i32]) -> bool
    ensures value { result ≡ slices_fit lines size xs.now out.now }
    ensures lengths { result ≡ true → (length xs.now ≡ lines * size) × (length out.now ≡ lines * size) }
{
    lines <= MAX_SIDE && size <= MAX_SIDE && xs.len() == lines * size && out.len() == lines * size
}

// The averages, then the residuals, of so many lines of `size` samples each: along
// the rows of a slice where the squeeze is horizontal, down its columns where it
// is vertical; and whether a pair or a tail leaves the plain range. Where the slices
// do not fit, nothing is told.
#[tactic(auto, using(crate::proofs::Entries::area, crate::proofs::Entries::halves), unfolding(crate::specs::Into::squeezed_into, crate::specs::Into::marked_into))]
pub fn squeeze_lines<M: Marking>(
    horizontal: bool,
    lines: usize,
    size: usize,
    xs: &[i32],
    out: &mut [i32],
) -> bool
    ensures { (out.new ≡ squeezed_into horizontal lines size xs.now out.old) × (result ≡ (M.marks && marked_into horizontal lines size xs.now out.old)) }
{
    if !slices_fit(lines, size, xs, out) {
        return false;
    }
    let (averages, residuals) = out.split_at_mut(lines * (size - size / 2));
    if horizontal {
        let rows = Rows {
            count: lines,
            width: size,
            samples: xs,
        };
        rows.squeeze_along::<M>(averages, residuals)
    } else {
        let rows = Rows {
            count: size,
            width: lines,
            samples: xs,
        };
        rows.squeeze_across::<M>(averages, residuals)
    }
}
