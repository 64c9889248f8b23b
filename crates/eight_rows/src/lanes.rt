// Eight lanes of a slice, `stride` samples apart: a block taken out and put in.
// The bounds are met by the callers' loops, so that none is tested there.
ghost use Rattle.std.specs.Prelude.{◌≡◌, ◌+◌, ◌*◌, ◌<◌, ◌≤◌, length};
ghost use Rattle.eight_rows.specs.Lanes.{lanes_at, with_lanes};

use std::array;

pub(crate) fn load_lanes(s: &[i32], at: usize, stride: usize) -> [i32; 8]
    requires { at + 7 * stride < length s.now }
    ensures { result ≡ lanes_at s.now at stride }
{
    array::from_fn(|k| s[at + k * stride])
}

pub(crate) fn store_lanes(s: &mut [i32], at: usize, stride: usize, b: [i32; 8])
    requires { at + 7 * stride < length s.old }
    ensures { s.new ≡ with_lanes s.old at stride b }
{
    for k in 0..8 {
        s[at + k * stride] = b[k];
    }
}

// Four blocks at neighbouring positions. The four samples of a lane are written
// together, so that the compiler transposes the blocks and stores four at once.
pub(crate) fn store_four(
    s: &mut [i32],
    at: usize,
    stride: usize,
    a: [i32; 8],
    b: [i32; 8],
    c: [i32; 8],
    d: [i32; 8],
)
    requires { (at + 3 + 7 * stride < length s.old) × (4 ≤ stride) }
    ensures { s.new ≡ with_lanes (with_lanes (with_lanes (with_lanes s.old at stride a) (at + 1) stride b) (at + 2) stride c) (at + 3) stride d }
{
    for k in 0..8 {
        let o = at + k * stride;
        s[o] = a[k];
        s[o + 1] = b[k];
        s[o + 2] = c[k];
        s[o + 3] = d[k];
    }
}
