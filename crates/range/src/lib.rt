// The plain range of samples, from -268,435,456 to 268,435,455, on which the pair's
// rule is the standard's: whether a sample lies outside it, or some sample of a slice,
// and the choice between a call that tells so and one that does not. Total.
#![tactic(auto)]

ghost use Rattle.std.specs.Prelude.{◌≡◌, Bool, true, false, ◌&&◌, ℕ, ◌<◌, pos, length, get_or};
ghost use Rattle.arith32.specs.Arith.{Sample, residue, ◌⊕◌};
ghost use Rattle.range.specs.Range.{outside, some_outside};

use arith32::wrapping_add;

// How many samples the range has: counted from its lowest on, each is below this number.
const LENGTH: u32 = 536_870_912;

// The sample counted from the range's lowest on, as 32 bits.
#[tactic(auto, using(crate::proofs::Bits::bits))]
fn from_lowest(z: i32) -> u32
    ensures { result ≡ residue (z ⊕ pos 268_435_456) }
{
    wrapping_add(z, 268_435_456).cast_unsigned()
}

#[tactic(auto, using(crate::proofs::Bits::counts))]
pub fn is_outside(z: i32) -> bool
    ensures { result ≡ outside z }
{
    LENGTH <= from_lowest(z)
}

// One `or` for each sample: a number is at least `LENGTH` exactly if a bit from that one
// on is set.
pub fn some_outside(xs: &[i32]) -> bool
    ensures { result ≡ some_outside xs.now }
{
    let mut bits = 0;
    for x in xs {
        bits |= from_lowest(*x);
    }
    LENGTH <= bits
}

// Reads samples and does nothing with them: that the elements of a slice are samples of
// 32 bits is known of those that were read. The compiler leaves the loop out.
fn read_samples(xs: &[i32])
    ensures { (i : ℕ) → i < length xs.now → Sample (get_or xs.now i (pos 0)) }
{
    for x in xs {
        let _sample = *x;
    }
}

// Whether a call tells of samples outside the range. What depends on it is written once
// for both, and where nothing is told no sample is looked at.
pub trait Marking {
    ghost marks: { Bool };

    fn some_outside(xs: &[i32]) -> bool
        ensures { result ≡ (marks && some_outside xs.now) };

    // What a call tells may rest on samples that it does not look at: see `read_samples`.
    fn read_samples(xs: &[i32])
        ensures { marks ≡ true → (i : ℕ) → i < length xs.now → Sample (get_or xs.now i (pos 0)) };
}

pub struct Marked;

impl Marking for Marked {
    ghost marks = { true };

    fn some_outside(xs: &[i32]) -> bool {
        some_outside(xs)
    }

    fn read_samples(xs: &[i32]) {
        read_samples(xs);
    }
}

pub struct Unmarked;

impl Marking for Unmarked {
    ghost marks = { false };

    fn some_outside(_xs: &[i32]) -> bool {
        false
    }

    fn read_samples(_xs: &[i32]) {}
}
