// What the test programs share: numbers and samples as files store them, four
// bytes each, least byte first; and marks, which show in a room for samples
// where nothing was written. Total.
#![tactic(auto)]

ghost use Rattle.std.specs.Prelude.{◌≡◌, ◌<◌, ◌≤◌, length, All};
ghost use Rattle.std.specs.Result.{result_ok};
ghost use Rattle.samples.specs.Samples.{byte_at, word_at, sample_at, stored};
ghost use Rattle.samples.specs.Rooms.{Holds, Guarded, Exactly};
ghost use Rattle.samples.specs.Rooms as Rooms;

use std::num::TryFromIntError;

// Samples before and after those that a room lends, at least.
pub const GUARD: usize = 16;

fn byte_at(bytes: &[u8], at: usize) -> u8
    ensures { result ≡ byte_at bytes.now at }
{
    bytes.get(at).copied().unwrap_or(0)
}

// The number that starts at `at`.
#[tactic(auto, unfolding(crate::specs::Samples::word_at))]
pub fn word_at(bytes: &[u8], at: usize) -> u32
    ensures { result ≡ word_at bytes.now at }
{
    if bytes.len() <= at {
        return 0;
    }
    u32::from_le_bytes([
        byte_at(bytes, at),
        byte_at(bytes, at + 1),
        byte_at(bytes, at + 2),
        byte_at(bytes, at + 3),
    ])
}

// The sample that starts at `at`.
#[tactic(auto, unfolding(crate::specs::Samples::sample_at))]
pub fn sample_at(bytes: &[u8], at: usize) -> i32
    ensures { result ≡ sample_at bytes.now at }
{
    arith32::from_bits(word_at(bytes, at))
}

// The number that starts at `at` in a narrower type; none where it doesn't fit.
pub fn narrow_at<T: TryFrom<u32, Error = TryFromIntError>>(bytes: &[u8], at: usize) -> Option<T>
    ensures { (r : _) × T.try_from_gives (word_at bytes.now at) r × (result ≡ result_ok r) }
{
    T::try_from(word_at(bytes, at)).ok()
}

// An array of a type's default values, zeros for numbers. A large one is made by a call,
// since a proof that meets the values themselves counts them one by one.
pub fn zeros<T: Copy + Default, const N: usize>() -> [T; N]
    ensures { All T.is_default result }
{
    [T::default(); N]
}

// Fills s with the samples in `bytes`, and zeros past their end.
pub fn decode(bytes: &[u8], s: &mut [i32])
    ensures { Holds (stored bytes.now) s.new 0 (length s.old) }
{
    for (i, x) in s.iter_mut().enumerate() {
        *x = sample_at(bytes, 4 * i);
    }
}

// Whether s has the samples in `bytes`, and zeros past their end.
pub fn same(bytes: &[u8], s: &[i32]) -> bool
    ensures { Exactly result (Holds (stored bytes.now) s.now 0 (length s.now)) }
{
    s.iter()
        .enumerate()
        .all(|(i, x)| *x == sample_at(bytes, 4 * i))
}

#[tactic(auto, using(std::proofs::lemmas::Int::to_z_pos), unfolding(crate::specs::Rooms::mark))]
fn mark(i: usize) -> i32
    ensures { result ≡ Rooms.mark i }
{
    (1_515_870_000 + i % 1021) as i32
}

// Marks every sample of a room.
pub fn fill(s: &mut [i32])
    ensures { Holds Rooms.mark s.new 0 (length s.old) }
{
    for (i, x) in s.iter_mut().enumerate() {
        *x = mark(i);
    }
}

// Whether a room reaches up to `to` and has its marks from `from` on up to there. A loop
// over what is asked: `enumerate` and `skip` go through what stands before it too.
pub fn kept(s: &[i32], from: usize, to: usize) -> bool
    ensures { Exactly result ((to ≤ length s.now) × Holds Rooms.mark s.now from to) }
{
    if s.len() < to {
        return false;
    }
    for i in from..to {
        if s[i] != mark(i) {
            return false;
        }
    }
    true
}

// Whether a room holds the n samples in `bytes`, zeros past their end, behind its first
// guard, and its marks around them.
pub fn holds(room: &[i32], n: u32, bytes: &[u8]) -> bool
    ensures { Exactly result (Guarded (stored bytes.now) n room.now) }
{
    let to = GUARD + n as usize;
    if room.len() < to + GUARD {
        return false;
    }
    kept(room, 0, GUARD) & same(bytes, &room[GUARD..to]) & kept(room, to, room.len())
}
