// The tendency of three neighbouring samples (the Rust's
// `smooth_tendency_impl`), computed in two ways under one contract: with an
// early return on a turn, for a line taken pair by pair, and without a branch,
// for the lanes of a block. Total on all 32-bit values.
#![tactic(auto)]

ghost use Rattle.std.specs.Prelude.{◌≡◌};
ghost use Rattle.tendency.specs.Tendency as Tend;

use arith32::{lowest_bit, third, wrapping_abs, wrapping_add, wrapping_sub};

#[tactic(auto, unfolding(crate::specs::Tendency::opposite))]
fn opposite(x: i32, y: i32) -> bool
    ensures { result ≡ Tend.opposite x y }
{
    ((x < 0) != (y < 0)) & ((x != 0) & (y != 0))
}

#[tactic(auto, unfolding(crate::specs::Tendency::slope))]
fn slope(p: i32, r: i32) -> i32
    ensures { result ≡ Tend.slope p r }
{
    wrapping_add(wrapping_add(2, r), third(p)) >> 2
}

// Twice p is even, so the lowest bit may go to either side of the comparison.
fn clamp_before(p: i32, v: i32) -> i32
    ensures { result ≡ Tend.clamp_before p v }
{
    let twice = wrapping_add(p, p);
    let clamped = wrapping_add(twice, 1);
    if twice < wrapping_sub(v, lowest_bit(v)) {
        clamped
    } else {
        v
    }
}

// Not one function with `clamp_before`: side of the comparison, bit and value differ.
#[tactic(auto, unfolding(crate::specs::Tendency::clamp_after))]
fn clamp_after(q: i32, v: i32) -> i32
    ensures { result ≡ Tend.clamp_after q v }
{
    let twice = wrapping_add(q, q);
    if twice < wrapping_add(v, lowest_bit(v)) {
        twice
    } else {
        v
    }
}

#[tactic(auto, unfolding(crate::specs::Tendency::negated_if))]
fn negated_if(z: i32, v: i32) -> i32
    ensures { result ≡ Tend.negated_if z v }
{
    let negated = wrapping_sub(0, v);
    if z < 0 { negated } else { v }
}

// The tendency where x = a - b and y = b - c do not turn; z = a - c.
#[tactic(auto, unfolding(crate::specs::Tendency::monotone))]
fn monotone(x: i32, y: i32, z: i32) -> i32
    ensures { result ≡ Tend.monotone x y z }
{
    let p = wrapping_abs(x);
    let v = clamp_before(p, slope(p, wrapping_abs(z)));
    negated_if(z, clamp_after(wrapping_abs(y), v))
}

// `opposite` by branches: where its answer is branched on, a pair takes 42.5
// instructions so and 48.0 by `opposite` (no call slower than before).
#[tactic(auto, unfolding(crate::specs::Tendency::opposite))]
fn turns(x: i32, y: i32) -> bool
    ensures { result ≡ Tend.opposite x y }
{
    if x < 0 {
        0 < y
    } else if 0 < x {
        y < 0
    } else {
        false
    }
}

// The tendency of a (previous output), b (average) and c (next average). Each
// way to compute it has the same contract, so what is made with a tendency is
// written and proved once for all ways.
pub trait SmoothTendency {
    fn smooth_tendency(a: i32, b: i32, c: i32) -> i32
        ensures { result ≡ Tend.tendency a b c };
}

// Leaves early on a turn: for a line taken pair by pair, where each pair waits
// on the one before.
pub struct Branching;

#[tactic(auto, unfolding(crate::specs::Tendency::tendency))]
impl SmoothTendency for Branching {
    fn smooth_tendency(a: i32, b: i32, c: i32) -> i32 {
        let x = wrapping_sub(a, b);
        let y = wrapping_sub(b, c);
        if turns(x, y) {
            return 0;
        }
        monotone(x, y, wrapping_sub(a, c))
    }
}

// Computes all and selects the turn last, so that lanes run side by side.
pub struct Branchless;

#[tactic(auto, unfolding(crate::specs::Tendency::tendency))]
impl SmoothTendency for Branchless {
    fn smooth_tendency(a: i32, b: i32, c: i32) -> i32 {
        let x = wrapping_sub(a, b);
        let y = wrapping_sub(b, c);
        let t = monotone(x, y, wrapping_sub(a, c));
        if opposite(x, y) { 0 } else { t }
    }
}
