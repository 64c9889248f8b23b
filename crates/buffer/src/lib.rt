// Whole slices of samples copied and cleared. Total.
#![tactic(auto)]

ghost use Rattle.std.specs.Prelude.{◌≡◌};
ghost use Rattle.buffer.specs.Buffer.{copied, zeros};

// The samples of `from` over the front of `to`, as many as both have. A loop, which becomes
// vector code: `copy_from_slice` becomes a call of `memmove`, which the archive for C would
// then need from outside.
pub fn copy(from: &[i32], to: &mut [i32])
    ensures { to.new ≡ copied from.now to.old }
{
    let n = from.len().min(to.len());
    for i in 0..n {
        to[i] = from[i];
    }
}

#[tactic(auto, unfolding(crate::specs::Buffer::zeros))]
pub fn clear(s: &mut [i32])
    ensures { s.new ≡ zeros s.old }
{
    s.fill(0);
}
