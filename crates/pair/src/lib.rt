// The pair (the Rust's `unsqueeze_impl` and `unsqueeze_scalar`): two samples
// from an average and a residual between their neighbours, and the writer's way
// back, each with the mark that says whether one of the six samples lies outside the
// plain range. Total on all 32-bit values; that the two ways undo each other is
// proofs/Inverse.antt.
#![tactic(auto)]

ghost use Rattle.std.specs.Prelude.{◌≡◌};
ghost use Rattle.arith32.specs.Arith.{◌⊖◌};
ghost use Rattle.pair.specs.Pair as P;
ghost use Rattle.pair.specs.Marks.{any_outside, pair_marked};

use arith32::{half, wrapping_add, wrapping_sub};
use range::is_outside;
use tendency::SmoothTendency;

#[derive(Clone, Copy, Debug, PartialEq, Eq)]
pub struct Pair {
    pub first: i32,
    pub second: i32,
    // One of the pair's six samples lies outside the plain range.
    pub outside: bool,
}

// Two samples, and what the writer makes of them before it knows their neighbours.
#[derive(Clone, Copy, Debug, PartialEq, Eq)]
pub struct Averaged {
    pub first: i32,
    pub second: i32,
    pub average: i32,
    pub difference: i32,
}

// What the writer keeps of two samples beside their average.
#[derive(Clone, Copy, Debug, PartialEq, Eq)]
pub struct Rest {
    pub residual: i32,
    // One of the pair's six samples lies outside the plain range.
    pub outside: bool,
}

// Average and residual, the neighbours and the two samples. Where the answer is not
// asked for, the compiler leaves the tests out.
#[tactic(auto, unfolding(crate::specs::Marks::any_outside))]
fn any_outside(avg: i32, res: i32, next: i32, prev: i32, first: i32, second: i32) -> bool
    ensures { result ≡ any_outside avg res next prev first second }
{
    is_outside(avg)
        | (is_outside(res)
            | (is_outside(next) | (is_outside(prev) | (is_outside(first) | is_outside(second)))))
}

// The two samples, the tendency taken in the way `T`: `Branching` for a line,
// `Branchless` for the lanes of a block.
#[tactic(auto, unfolding(crate::specs::Pair::difference, crate::specs::Pair::first_of, crate::specs::Pair::second_of, crate::specs::Pair::first, crate::specs::Pair::second, crate::specs::Marks::pair_marked))]
pub fn unsqueeze<T: SmoothTendency>(avg: i32, res: i32, next: i32, prev: i32) -> Pair
    ensures { (result.first ≡ P.first avg res next prev) × (result.second ≡ P.second avg res next prev) × (result.outside ≡ pair_marked avg res next prev) }
{
    let d = wrapping_add(res, T::smooth_tendency(prev, avg, next));
    let first = wrapping_add(avg, half(d));
    let second = wrapping_sub(first, d);
    Pair {
        first,
        second,
        outside: any_outside(avg, res, next, prev, first, second),
    }
}

#[tactic(auto, unfolding(crate::specs::Pair::average))]
pub fn squeeze(first: i32, second: i32) -> Averaged
    ensures { (result.first ≡ first) × (result.second ≡ second) × (result.average ≡ P.average first second) × (result.difference ≡ first ⊖ second) }
{
    let difference = wrapping_sub(first, second);
    let average = wrapping_sub(first, half(difference));
    Averaged {
        first,
        second,
        average,
        difference,
    }
}

// The residual of what `squeeze` makes, the tendency taken in the way `T`:
// `Branchless` in loops that run as vectors, since the writer knows all samples and
// nothing waits on a chain of pairs.
#[tactic(auto, unfolding(crate::specs::Pair::residual_of))]
pub fn residual<T: SmoothTendency>(own: Averaged, next: i32, prev: i32) -> Rest
    ensures { (result.residual ≡ P.residual_of own.difference own.average next prev) × (result.outside ≡ any_outside own.average (P.residual_of own.difference own.average next prev) next prev own.first own.second) }
{
    let average = own.average;
    let residual = wrapping_sub(own.difference, T::smooth_tendency(prev, average, next));
    Rest {
        residual,
        outside: any_outside(average, residual, next, prev, own.first, own.second),
    }
}
