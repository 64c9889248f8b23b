// C functions over one wrapping sum, one pair each way and one block. They are
// what bench/pair.sh disassembles, counts and compares with plain Rust; the
// terminal software does not call them. Total: a slice of another length than
// the one named is left as it is.
#![tactic(auto)]

ghost use Rattle.std.specs.Prelude.{◌≡◌};
ghost use Rattle.arith32.specs.Arith.{◌⊕◌};
ghost use Rattle.probe.specs.Probe as Probe;

use pair::{Pair, Rest};
use tendency::Branching;

#[unsafe(no_mangle)]
pub extern "C" fn probe_add(a: i32, b: i32) -> i32
    ensures { result ≡ a ⊕ b }
{
    arith32::wrapping_add(a, b)
}

// `out` holds two samples: first and second.
#[tactic(auto, using(crate::proofs::Both::kept), unfolding(crate::specs::Probe::unsqueezed))]
#[unsafe(no_mangle)]
pub extern "C" fn probe_unsqueeze(avg: i32, res: i32, next: i32, prev: i32, out: &mut [i32])
    ensures { out.new ≡ Probe.unsqueezed avg res next prev out.old }
{
    if out.len() != 2 {
        return;
    }
    let Pair { first, second, .. } = pair::unsqueeze::<Branching>(avg, res, next, prev);
    out[0] = first;
    out[1] = second;
}

// `out` holds two samples: average and residual.
#[tactic(auto, using(crate::proofs::Both::kept), unfolding(crate::specs::Probe::squeezed))]
#[unsafe(no_mangle)]
pub extern "C" fn probe_squeeze(first: i32, second: i32, next: i32, prev: i32, out: &mut [i32])
    ensures { out.new ≡ Probe.squeezed first second next prev out.old }
{
    if out.len() != 2 {
        return;
    }
    let s = pair::squeeze(first, second);
    let average = s.average;
    let Rest { residual, .. } = pair::residual::<Branching>(s, next, prev);
    out[0] = average;
    out[1] = residual;
}

// The eight samples from `at` on; zeros where `s` has fewer.
#[tactic(auto, unfolding(crate::specs::Probe::block_at))]
fn load_block(s: &[i32], at: usize) -> [i32; 8]
    ensures { result ≡ Probe.block_at s.now at }
{
    s.get(at..)
        .and_then(|rest| rest.first_chunk())
        .copied()
        .unwrap_or([0; 8])
}

// `b` over the eight samples from `at` on; nothing where `s` has fewer.
#[tactic(auto, unfolding(crate::specs::Probe::with_block))]
fn store_block(s: &mut [i32], at: usize, b: [i32; 8])
    ensures { s.new ≡ Probe.with_block s.old at b }
{
    if at <= s.len() && 8 <= s.len() - at {
        // Not `copy_from_slice`: by bench/pair.sh a block takes 194 instructions with it,
        // 1.21 times plain Rust's, and so 180, 1.12 times.
        for i in 0..8 {
            s[at + i] = b[i];
        }
    }
}

// Each input holds eight samples, and `out` sixteen: the firsts, the seconds.
#[tactic(auto, unfolding(crate::specs::Probe::blocks))]
#[unsafe(no_mangle)]
pub extern "C" fn probe_block(avg: &[i32], res: &[i32], next: &[i32], prev: &[i32], out: &mut [i32])
    ensures { out.new ≡ Probe.blocks avg.now res.now next.now prev.now out.old }
{
    let r = block::unsqueeze_block(
        load_block(avg, 0),
        load_block(res, 0),
        load_block(next, 0),
        load_block(prev, 0),
    );
    let firsts = r[0];
    let seconds = r[1];
    store_block(out, 0, firsts);
    store_block(out, 8, seconds);
}
