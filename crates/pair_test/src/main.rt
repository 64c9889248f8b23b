// Replays pairs about the ends of the plain range and pairs of the published Rust
// (tests/pairs.py made `stdin` of its answers): each pair back and forward again with
// its mark, the tendency taken in both ways, and eight pairs at a time as one block.
// Prints how many there were and how many came out right.
#![tactic(auto)]

ghost use Rattle.std.specs.Prelude.{◌<◌};

use pair::{Pair, Rest};
use replay::{count_in, say};
use samples::{sample_at, word_at, zeros};
use std::{array, io};
use tendency::{Branching, Branchless};

// A pair of `stdin`: average, residual, next average, previous output, first,
// second and the mark, four bytes each.
const PAIR: usize = 28;

const BLOCK: usize = 8 * PAIR;

// Room for the whole input.
const INPUT: usize = 524_288;

// Whether a pair comes out right both ways.
fn pair_agrees(case: &[u8]) -> bool {
    let avg = sample_at(case, 0);
    let res = sample_at(case, 4);
    let next = sample_at(case, 8);
    let prev = sample_at(case, 12);
    let first = sample_at(case, 16);
    let second = sample_at(case, 20);
    let outside = word_at(case, 24) != 0;
    let samples = Pair {
        first,
        second,
        outside,
    };
    let own = pair::squeeze(first, second);
    let rest = Rest {
        residual: res,
        outside,
    };
    (pair::unsqueeze::<Branching>(avg, res, next, prev) == samples)
        & (pair::unsqueeze::<Branchless>(avg, res, next, prev) == samples)
        & (own.average == avg)
        & (pair::residual::<Branching>(own, next, prev) == rest)
        & (pair::residual::<Branchless>(own, next, prev) == rest)
}

// Number `k` of the seven of each of eight pairs.
fn eight(case: &[u8], k: usize) -> [i32; 8]
    requires { k < 7 }
{
    array::from_fn(|i| sample_at(case, PAIR * i + 4 * k))
}

// Whether eight pairs come out right as one block, which is marked where some lane is.
fn block_agrees(case: &[u8]) -> bool {
    let avg = eight(case, 0);
    let res = eight(case, 1);
    let next = eight(case, 2);
    let prev = eight(case, 3);
    let pairs = [eight(case, 4), eight(case, 5)];
    let marked = block::unsqueeze_marked(avg, res, next, prev);
    (block::unsqueeze_block(avg, res, next, prev) == pairs)
        & (marked.pairs == pairs)
        & (marked.outside == (eight(case, 6) != [0; 8]))
}

fn main(rt: HostRuntime) -> io::Result<()> {
    let mut buffer = zeros::<u8, INPUT>();
    let n = reading::read_full(&mut rt.reader(), &mut buffer)?;
    let bytes = &buffer[..n];
    let pairs = count_in(bytes, PAIR, pair_agrees);
    say(&rt, "pairs ", pairs)?;
    let blocks = count_in(bytes, BLOCK, block_agrees);
    say(&rt, "blocks ", blocks)
}
