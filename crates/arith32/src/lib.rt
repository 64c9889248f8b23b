// 32-bit sample arithmetic: sums that wrap, the wrapped absolute value, half
// toward zero, the upper half of a product, the lowest bit, and the sample of 32
// bits. What wraps or takes bits as they are is std's method. It stands here under
// clauses in the definitions' words, by which the check finds the proofs of tendency
// and pair alone; called there directly, it leaves goals on bits that the check does
// not find. Total: nothing is asked of a caller.
#![tactic(auto)]

ghost use Rattle.std.specs.Prelude.{◌≡◌, pos};
ghost use Rattle.arith32.specs.Arith as Arith;
ghost use Rattle.arith32.specs.Arith.{◌⊕◌, ◌⊖◌};

#[tactic(auto, using(crate::proofs::Wraps::wrapped_sum))]
pub fn wrapping_add(a: i32, b: i32) -> i32
    ensures { result ≡ a ⊕ b }
{
    a.wrapping_add(b)
}

#[tactic(auto, using(crate::proofs::Wraps::wrapped_difference))]
pub fn wrapping_sub(a: i32, b: i32) -> i32
    ensures { result ≡ a ⊖ b }
{
    a.wrapping_sub(b)
}

// -2^31 stays.
#[tactic(auto, using(crate::proofs::Wraps::wrapped_magnitude))]
pub fn wrapping_abs(z: i32) -> i32
    ensures { result ≡ Arith.wrapped_abs z }
{
    z.wrapping_abs()
}

// Half of `d` toward zero: `d` plus its sign bit, shifted right with sign. `d / 2` is
// the same; a rule of the project has it by the sign bit, exact at -1, 0 and -2^31.
pub fn half(d: i32) -> i32
    ensures { result ≡ Arith.half d }
{
    (d + (d < 0) as i32) >> 1
}

// The upper 32 bits of the signed product by 55555556 hex: the whole third of
// a sample that is not negative (`third_whole` in proofs/Thirds.antt).
#[tactic(auto, using(crate::proofs::Thirds::product_fits, crate::proofs::Thirds::third_sample, crate::proofs::Whole::widened))]
pub fn third(p: i32) -> i32
    ensures { result ≡ Arith.third p }
{
    (((p as i64) * 0x5555_5556) >> 32) as i32
}

// The lowest bit in two's complement: 1 for an odd sample.
pub fn lowest_bit(v: i32) -> i32
    ensures { result ≡ Arith.lowest_bit v }
{
    v & 1
}

// The sample with these 32 bits.
#[tactic(auto, using(crate::proofs::Wraps::wrapped_bits))]
pub fn from_bits(bits: u32) -> i32
    ensures { result ≡ Arith.wrap (pos bits) }
{
    bits.cast_signed()
}
