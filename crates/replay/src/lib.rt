// How a test program reads its cases, one after the other, from standard input,
// and says how many came out right. The contracts say which bytes are taken of an input
// whose bytes are known; those of standard streams are not.
#![tactic(auto)]

ghost use Rattle.replay.specs.Taken.{TakesWord, TakesCase};
ghost use Rattle.replay.specs.Cases.{cases_of};
ghost use Rattle.std.specs.Fn.{FnReturnsAt};
ghost use Rattle.std.specs.Prelude.{◌≡◌, ◌⊎◌, ℕ, ◌<◌, ◌≤◌, ◌/◌, Bool, List, length, count_by, IfOk, IfSome, IfNone};
ghost use Rattle.std.specs.Io.KnownBytes.{IsAtEnd};

use std::io;
use std::io::Read;

// The next number of the input; none where its four bytes are not whole.
pub fn read_word<R: Read>(input: &mut R) -> io::Result<Option<u32>>
    ensures taken { IfOk result (λ word. IfSome word (λ n. TakesWord (R.remaining input.old) (R.remaining input.new) n)) }
    ensures none { IfOk result (λ word. IfNone word (IsAtEnd (R.remaining input.new))) }
{
    let mut bytes = [0u8; 4];
    if reading::read_full(input, &mut bytes)? < 4 {
        return Ok(None);
    }
    Ok(Some(samples::word_at(&bytes, 0)))
}

// Puts the next bytes, whose number stands before them, at the start of `space`, and
// lends them; none where they are not whole, or have no room there.
pub fn read_case<'s, R: Read>(input: &mut R, space: &'s mut [u8]) -> io::Result<Option<&'s [u8]>>
    ensures room { IfOk result (λ case. IfSome case (λ bytes. length bytes.now ≤ length space.old)) }
    ensures taken { IfOk result (λ case. IfSome case (λ bytes. TakesCase (R.remaining input.old) (R.remaining input.new) bytes.now)) }
    ensures none { IfOk result (λ case. IfNone case (IsAtEnd (R.remaining input.new) ⊎ ((n : ℕ) × (length space.old < n) × TakesWord (R.remaining input.old) (R.remaining input.new) n))) }
{
    let Some(n) = read_word(input)? else {
        return Ok(None);
    };
    let Some(room) = space.get_mut(..n as usize) else {
        return Ok(None);
    };
    if reading::read_full(input, room)? < n as usize {
        return Ok(None);
    }
    Ok(Some(room))
}

// How many cases of a kind there were, and how many of them were right.
#[derive(Clone, Copy, PartialEq, Eq, Debug)]
pub struct Tally {
    pub cases: u64,
    pub right: u64,
}

// "kind", the cases of this kind and how many of them are right, on one line.
pub fn say(rt: &impl Print, kind: &str, tally: Tally) -> io::Result<()> {
    println!(rt; "{kind}{} right {}", tally.cases, tally.right)
}

// Replays the cases of the next kind, how many stands before them, one after the other
// in `space`, and counts those that `agrees` finds right.
pub fn count<R: Read, F: FnMut(&[u8]) -> bool>(
    input: &mut R,
    space: &mut [u8],
    mut agrees: F,
) -> io::Result<Tally>
    requires { F.IsAlwaysCallable agrees }
    ensures { IfOk result (λ tally. tally.right ≤ tally.cases) }
{
    let cases = read_word(input)?.unwrap_or(0);
    let mut right = 0u64;
    for _ in 0..cases {
        if let Some(case) = read_case(input, space)?
            && agrees(case)
        {
            right += 1;
        }
    }
    Ok(Tally {
        cases: cases as u64,
        right,
    })
}

// Counts, of the cases of `size` bytes that stand one after the other, the whole ones and
// those of them that `agrees` finds right. Cases without a byte are none.
pub fn count_in<F: Fn(&[u8]) -> bool>(bytes: &[u8], size: usize, agrees: F) -> Tally
    requires { F.IsAlwaysCallable agrees }
    ensures cases { result.cases ≡ length bytes.now / size }
    ensures right { result.right ≤ result.cases }
    ensures told { (test : List ℕ → Bool) → ((case : List ℕ) (b : Bool) → FnReturnsAt F.Fn agrees case b → b ≡ test case) → result.right ≡ count_by test (cases_of size bytes.now) }
{
    if size == 0 {
        return Tally { cases: 0, right: 0 };
    }
    let cases = bytes.chunks_exact(size);
    Tally {
        cases: cases.len() as u64,
        right: cases.filter(|case| agrees(case)).count() as u64,
    }
}
