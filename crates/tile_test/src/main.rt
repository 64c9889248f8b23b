// Replays tile calls (tests/tiles.py made `stdin`): what the published Rust
// answered, what the rule for tiles gives around the block's sizes and at the
// lines' ends, each refusal, squeezes uncut and cut, and samples at the ends of the
// plain range and one past them. The answer, the mark, every sample of the output and
// the samples around it are compared, by a call that tells a mark and by one that does
// not. Prints, for each kind of case, how many there were and how many came out right.
#![tactic(auto)]

ghost use Rattle.std.specs.Prelude.{◌<◌, ◌≤◌};

use numbers::answer_of;
use samples::{GUARD, decode, fill, holds, kept, word_at};
use squeeze::tiles::{squeeze_tile, squeeze_tile_marked};
use std::io;
use std::io::Read;

// The bytes of a case's head. The samples of the first four slices follow, and those
// of the output where the answer is 0.
const HEAD: usize = 80;

// Room for a case's bytes, and for the samples of its slices.
const CASE: usize = 8192;

const ROOM: usize = 1024;

// What the mark's slice holds before a call.
const UNTOLD: u32 = 7;

// The kinds of cases, in the order of `stdin`.
const KINDS: [&str; 12] = [
    "published ",
    "table ",
    "sizes ",
    "ends ",
    "limits ",
    "areas ",
    "misfits ",
    "lengths ",
    "order ",
    "cuts ",
    "marks ",
    "outputs ",
];

// The head of a case, in this order: numbers of four bytes each, sides of eight. The
// answer is the number that the file has, 0 where the tile is accepted; the direction is
// any number, which the library reads.
#[derive(Clone, Copy)]
struct Head {
    answer: u32,
    horizontal: u32,
    // Width and height of averages, residuals and output.
    sides: [usize; 6],
    // Of averages, residuals, next line, previous line and output.
    lengths: [u32; 5],
    mark: u32,
}

// The slices that a call reads.
#[derive(Clone, Copy)]
struct Given<'a> {
    avg: &'a [i32],
    res: &'a [i32],
    next: &'a [i32],
    prev: &'a [i32],
}

impl Head {
    fn read(bytes: &[u8; HEAD]) -> Head {
        Head {
            answer: word_at(bytes, 0),
            horizontal: word_at(bytes, 4),
            sides: [
                number_at(bytes, 8),
                number_at(bytes, 16),
                number_at(bytes, 24),
                number_at(bytes, 32),
                number_at(bytes, 40),
                number_at(bytes, 48),
            ],
            lengths: [56, 60, 64, 68, 72].map(|at| word_at(bytes, at)),
            mark: word_at(bytes, 76),
        }
    }

    // The samples of the four slices that are read.
    fn given(&self) -> usize
        ensures { result < 17_179_869_184 }
    {
        let [avg, res, next, prev, _] = self.lengths;
        avg as usize + res as usize + next as usize + prev as usize
    }

    // The four slices that are read, one after the other; none where there are fewer
    // samples.
    fn slices<'a>(&self, given: &'a [i32]) -> Option<Given<'a>> {
        let (avg, rest) = given.split_at_checked(self.lengths[0] as usize)?;
        let (res, rest) = rest.split_at_checked(self.lengths[1] as usize)?;
        let (next, rest) = rest.split_at_checked(self.lengths[2] as usize)?;
        let (prev, _) = rest.split_at_checked(self.lengths[3] as usize)?;
        Some(Given {
            avg,
            res,
            next,
            prev,
        })
    }

    // The room filled, and its place for the output; none where there is none.
    fn output<'a>(&self, room: &'a mut [i32]) -> Option<&'a mut [i32]> {
        fill(room);
        room.get_mut(GUARD..GUARD + self.lengths[4] as usize)
    }

    // What the call without a mark answers.
    fn call(&self, given: &[i32], out: &mut [i32]) -> Option<u32> {
        let Given {
            avg,
            res,
            next,
            prev,
        } = self.slices(given)?;
        let [aw, ah, rw, rh, ow, oh] = self.sides;
        let told = squeeze_tile(
            self.horizontal,
            aw,
            ah,
            rw,
            rh,
            ow,
            oh,
            avg,
            res,
            next,
            prev,
            out,
        );
        Some(answer_of(told))
    }

    // What the call with a mark answers, and what the mark's slice holds after it.
    fn call_marked(&self, given: &[i32], out: &mut [i32]) -> Option<(u32, u32)> {
        let Given {
            avg,
            res,
            next,
            prev,
        } = self.slices(given)?;
        let [aw, ah, rw, rh, ow, oh] = self.sides;
        let mut mark = [UNTOLD];
        let told = squeeze_tile_marked(
            self.horizontal,
            aw,
            ah,
            rw,
            rh,
            ow,
            oh,
            avg,
            res,
            next,
            prev,
            out,
            &mut mark,
        );
        Some((answer_of(told), mark[0]))
    }

    // Whether the room holds the wanted output, after a refusal none and what stood there,
    // and nothing was written around it.
    fn left_right(&self, wanted: &[u8], room: &[i32]) -> bool {
        let n = self.lengths[4];
        if self.answer == 0 {
            (wanted.len() == 4 * n as usize) & holds(room, n, wanted)
        } else {
            wanted.is_empty() & kept(room, 0, room.len())
        }
    }
}

// The number of eight bytes that starts at `at`.
fn number_at(bytes: &[u8; HEAD], at: usize) -> usize
    requires { at ≤ 68 }
{
    bytes[at..]
        .first_chunk()
        .map_or(0, |number| usize::from_le_bytes(*number))
}

// Whether the calls of a case come out right; none where the case is cut short, or its
// slices have no room.
fn agrees(case: &[u8], slices: &mut [i32], room: &mut [i32]) -> Option<bool> {
    let (head, samples) = case.split_first_chunk()?;
    let head = Head::read(head);
    let n = head.given();
    let (given, wanted) = samples.split_at_checked(4 * n)?;
    let slices = slices.get_mut(..n)?;
    decode(given, slices);
    let mark = if head.answer == 0 { head.mark } else { UNTOLD };
    let told = head.call_marked(slices, head.output(room)?)?;
    let marked = (told == (head.answer, mark)) & head.left_right(wanted, room);
    let answer = head.call(slices, head.output(room)?)?;
    Some(marked & (answer == head.answer) & head.left_right(wanted, room))
}

// Replays the cases of the next kind and says how many are right.
fn kind<R: Read>(rt: &impl Print, input: &mut R, name: &str) -> io::Result<()> {
    let mut space = [0u8; CASE];
    let mut slices = [0i32; ROOM];
    let mut room = [0i32; ROOM];
    let tally = replay::count(input, &mut space, |case| {
        agrees(case, &mut slices, &mut room) == Some(true)
    })?;
    replay::say(rt, name, tally)
}

fn main(rt: HostRuntime) -> io::Result<()> {
    let mut input = rt.reader();
    for name in KINDS {
        kind(&rt, &mut input, name)?;
    }
    Ok(())
}
