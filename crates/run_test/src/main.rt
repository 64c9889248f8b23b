// Replays whole records (tests/runs.py made `stdin`) through what the C functions
// squeeze_rebuild and squeeze_write call, and those beside them that tell a mark: what
// the rules give for pictures and pyramids both ways, and each refusal. The answer, the
// slice that is filled, the work slice, the slice that is read, the mark and the samples
// around the lent slices are compared. Prints, for each kind of case, how many there
// were and how many came out right.
#![tactic(auto)]

use numbers::{Refusal, answer_of};
use samples::{GUARD, decode, fill, holds, kept, same, word_at, zeros};
use squeeze::whole_runs::{
    squeeze_rebuild, squeeze_rebuild_marked, squeeze_write, squeeze_write_marked,
};
use std::io;
use std::io::Read;

// The kinds of cases, in the order of `stdin`.
const KINDS: [&str; 11] = [
    "vectors ",
    "sizes ",
    "plans ",
    "metas ",
    "limits ",
    "refusals ",
    "order ",
    "cuts ",
    "strips ",
    "versions ",
    "marks ",
];

// The bytes of a case's head: the answer, the record's length in bytes, the lengths in
// samples of the slices that are read, filled and for work, and the mark. The record
// follows, then the samples that are read, and where the answer is 0 those that are
// expected.
const HEAD: usize = 24;

// What the mark's slice holds before a call.
const UNTOLD: u32 = 7;

// Room for a case's bytes, and for the samples of a slice with its guards.
const CASE: usize = 1_048_576;

const ROOM: usize = 131_072;

// The lengths of the slices that are read, filled and for work, and of the mark's.
#[derive(Clone, Copy)]
struct Lengths {
    read: u32,
    filled: u32,
    work: u32,
    mark: usize,
}

impl Lengths {
    // Wrong lengths: each of the three slices one sample short, then each one sample long.
    fn wrong(self) -> [Lengths; 6] {
        [
            Lengths {
                read: shorter(self.read),
                ..self
            },
            Lengths {
                filled: shorter(self.filled),
                ..self
            },
            Lengths {
                work: shorter(self.work),
                ..self
            },
            Lengths {
                read: self.read.saturating_add(1),
                ..self
            },
            Lengths {
                filled: self.filled.saturating_add(1),
                ..self
            },
            Lengths {
                work: self.work.saturating_add(1),
                ..self
            },
        ]
    }
}

// One sample short; of none, one sample long.
fn shorter(n: u32) -> u32 {
    n.checked_sub(1).unwrap_or(1)
}

// Rooms for the samples of the three slices, those that are written with their guards.
#[derive(Drop)]
struct Rooms {
    source: [i32; ROOM],
    filled: [i32; ROOM],
    work: [i32; ROOM],
}

impl Rooms {
    fn empty() -> Rooms {
        Rooms {
            source: zeros(),
            filled: zeros(),
            work: zeros(),
        }
    }
}

// How far a lent slice of n samples with its guards reaches.
fn reach(n: u32) -> usize {
    GUARD + n as usize + GUARD
}

// Marks a room as far as a lent slice with its guards reaches, and lends the slice; none
// where it has no room.
fn lend(room: &mut [i32; ROOM], n: u32) -> Option<&mut [i32]> {
    fill(room.get_mut(..reach(n))?);
    room.get_mut(GUARD..GUARD + n as usize)
}

// Whether a room holds these samples where a slice was lent, zeros past their end, and
// nothing was written around it.
fn lent_holds(room: &[i32; ROOM], n: u32, samples: &[u8]) -> bool {
    room.get(..reach(n))
        .is_some_and(|marked| holds(marked, n, samples))
}

// Whether nothing was written in a room, as far as a lent slice with its guards reaches.
fn untouched(room: &[i32; ROOM], n: u32) -> bool {
    kept(room, 0, reach(n))
}

// A case one way: the answer that the call must give, a number as the file has it, the
// mark, none for a call that tells none, the lengths that are right, the record, and the
// samples that are read and those that are expected, as bytes.
#[derive(Clone, Copy)]
struct Run<'a> {
    answer: u32,
    mark: Option<u32>,
    lengths: Lengths,
    record: &'a [u8],
    given: &'a [u8],
    wanted: &'a [u8],
}

impl<'a> Run<'a> {
    // Whether a call with slices of these lengths gives this answer and leaves every slice
    // as it must; none where one has no room.
    fn call_right<F: Fn(&[u8], &[i32], &mut [i32], &mut [i32], &mut [u32]) -> Result<(), Refusal>>(
        &self,
        call: &F,
        lengths: Lengths,
        answer: u32,
        rooms: &mut Rooms,
    ) -> Option<bool>
        requires { F.IsAlwaysCallable call.now }
    {
        let source = rooms.source.get_mut(..lengths.read as usize)?;
        decode(self.given, source);
        let filled = lend(&mut rooms.filled, lengths.filled)?;
        let work = lend(&mut rooms.work, lengths.work)?;
        let mut mark = [UNTOLD; 2];
        let lent = mark.get_mut(..lengths.mark)?;
        let answered = answer_of(call(self.record, source, filled, work, lent));
        let left = if answer == 0 {
            lent_holds(&rooms.filled, lengths.filled, self.wanted)
                & lent_holds(&rooms.work, lengths.work, b"")
                & (mark == [self.mark.unwrap_or(UNTOLD), UNTOLD])
        } else {
            untouched(&rooms.filled, lengths.filled)
                & untouched(&rooms.work, lengths.work)
                & (mark == [UNTOLD; 2])
        };
        Some((answered == answer) & same(self.given, source) & left)
    }

    // Whether every call comes out right: an accepted case is tried with wrong lengths too,
    // and a call that tells a mark without its slice, which is judged last.
    fn right<F: Fn(&[u8], &[i32], &mut [i32], &mut [i32], &mut [u32]) -> Result<(), Refusal>>(
        &self,
        call: &F,
        rooms: &mut Rooms,
    ) -> Option<bool>
        requires { F.IsAlwaysCallable call.now }
    {
        let mut right = self.call_right(call, self.lengths, self.answer, rooms)?;
        let refused = if self.answer == 0 {
            for lengths in self.lengths.wrong() {
                right &= self.call_right(call, lengths, Refusal::Length.number(), rooms)?;
            }
            Refusal::Length.number()
        } else {
            self.answer
        };
        if self.mark.is_some() {
            let lengths = Lengths {
                mark: 0,
                ..self.lengths
            };
            right &= self.call_right(call, lengths, refused, rooms)?;
        }
        Some(right)
    }
}

// The calls that tell no mark, in the form of those that do.
fn rebuild(
    bytes: &[u8],
    pyramid: &[i32],
    picture: &mut [i32],
    work: &mut [i32],
    _mark: &mut [u32],
) -> Result<(), Refusal> {
    squeeze_rebuild(bytes, pyramid, picture, work)
}

fn write(
    bytes: &[u8],
    picture: &[i32],
    pyramid: &mut [i32],
    work: &mut [i32],
    _mark: &mut [u32],
) -> Result<(), Refusal> {
    squeeze_write(bytes, picture, pyramid, work)
}

// Whether the case's calls come out right; none where it is cut short, or a slice has no
// room. An accepted case is run both ways: what one function reads is what the other
// must fill, and the mark is the same. A refused one gives both the same samples to read.
fn agrees(case: &[u8], rooms: &mut Rooms) -> Option<bool> {
    let (head, rest): (&[u8; HEAD], &[u8]) = case.split_first_chunk()?;
    let answer = word_at(head, 0);
    let read = word_at(head, 8);
    let lengths = Lengths {
        read,
        filled: word_at(head, 12),
        work: word_at(head, 16),
        mark: 1,
    };
    let (record, samples) = rest.split_at_checked(word_at(head, 4) as usize)?;
    let (pyramid, expected) = samples.split_at_checked(4 * read as usize)?;
    let (whole, picture) = if answer == 0 {
        let even = (lengths.filled == read) & (lengths.work == read);
        (even & (expected.len() == pyramid.len()), expected)
    } else {
        (expected.is_empty(), pyramid)
    };
    let rebuilt = Run {
        answer,
        mark: None,
        lengths,
        record,
        given: pyramid,
        wanted: picture,
    };
    let written = Run {
        given: picture,
        wanted: pyramid,
        ..rebuilt
    };
    let mark = Some(word_at(head, 20));
    let unmarked = rebuilt.right(&rebuild, rooms)? & written.right(&write, rooms)?;
    let rebuilds = Run { mark, ..rebuilt }.right(&squeeze_rebuild_marked, rooms)?;
    let writes = Run { mark, ..written }.right(&squeeze_write_marked, rooms)?;
    Some(whole & unmarked & rebuilds & writes)
}

// Replays the cases of the next kind and says how many are right.
fn kind<R: Read>(rt: &impl Print, input: &mut R, name: &str) -> io::Result<()> {
    let mut space = zeros::<u8, CASE>();
    let mut rooms = Rooms::empty();
    let tally = replay::count(input, &mut space, |case| {
        agrees(case, &mut rooms) == Some(true)
    })?;
    replay::say(rt, name, tally)
}

fn main(rt: HostRuntime) -> io::Result<()> {
    let mut input = rt.reader();
    for name in KINDS {
        kind(&rt, &mut input, name)?;
    }
    Ok(())
}
