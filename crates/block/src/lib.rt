// The block of eight (it stands for the Rust's `SimdDescriptor` vectors): four
// blocks of eight neighbouring samples by value, an array of two blocks out,
// each lane the pair. Its mark comes beside it. Total.
#![tactic(auto)]

ghost use Rattle.std.specs.Prelude.{◌≡◌};
ghost use Rattle.block.specs.Block.{unsqueezed};
ghost use Rattle.block.specs.Marks.{block_marked};

use pair::Pair;
use range::some_outside;
use tendency::Branchless;

pub fn unsqueeze_block(
    avg: [i32; 8],
    res: [i32; 8],
    next: [i32; 8],
    prev: [i32; 8],
) -> [[i32; 8]; 2]
    ensures { result ≡ unsqueezed avg res next prev }
{
    // Copies, so that the block is small enough to be inlined at each call.
    let mut firsts = avg;
    let mut seconds = prev;
    for i in 0..8 {
        let Pair { first, second, .. } = pair::unsqueeze::<Branchless>(
            firsts[i], res[i], next[i], seconds[i],
        );
        firsts[i] = first;
        seconds[i] = second;
    }
    [firsts, seconds]
}

// What a block makes, and whether some lane's pair has a sample outside the plain range.
#[derive(Clone, Copy)]
pub struct Marked {
    pub pairs: [[i32; 8]; 2],
    pub outside: bool,
}

#[tactic(auto, using(crate::proofs::Marks::by_samples))]
pub fn unsqueeze_marked(avg: [i32; 8], res: [i32; 8], next: [i32; 8], prev: [i32; 8]) -> Marked
    ensures { (result.pairs ≡ unsqueezed avg res next prev) × (result.outside ≡ block_marked avg res next prev) }
{
    let pairs = unsqueeze_block(avg, res, next, prev);
    let made = some_outside(&pairs[0]) | some_outside(&pairs[1]);
    let outside = some_outside(&avg)
        | (some_outside(&res) | (some_outside(&next) | (some_outside(&prev) | made)));
    Marked { pairs, outside }
}
