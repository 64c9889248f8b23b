// Replays rectangle calls (tests/rects.py made `stdin`, of the published Rust's
// answers and of the rule for tiles). Prints how many there were and how many
// came out right.
#![tactic(auto)]

use channel::Channel;
use numbers::answer_of;
use rect::Rect;
use samples::{narrow_at, word_at, zeros};
use std::io;

// A case of `stdin`: the channel's width, height and two shifts, the output
// kind, the stored kind, the group dimension and the position, then the
// answer's five numbers, four bytes each.
const CASE: usize = 56;

// Room for the whole input.
const INPUT: usize = 524_288;

// The rectangle that a case wants.
fn wanted(case: &[u8]) -> Rect {
    Rect {
        x: word_at(case, 40),
        y: word_at(case, 44),
        width: word_at(case, 48),
        height: word_at(case, 52),
    }
}

// Whether a case comes out right; after a refusal its rectangle is all zeros. A number
// that is too large for its type is the largest.
fn case_agrees(case: &[u8]) -> bool {
    let channel = Channel {
        width: word_at(case, 0),
        height: word_at(case, 4),
        hshift: narrow_at(case, 8).unwrap_or(u8::MAX),
        vshift: narrow_at(case, 12).unwrap_or(u8::MAX),
    };
    let found = rect::get_grid_rect(
        channel,
        narrow_at(case, 16).unwrap_or(u8::MAX),
        narrow_at(case, 20).unwrap_or(u8::MAX),
        word_at(case, 24),
        narrow_at(case, 28).unwrap_or(u16::MAX),
        narrow_at(case, 32).unwrap_or(u16::MAX),
    );
    let answer = answer_of(found.map(|_| ()));
    (answer == word_at(case, 36)) & (found.unwrap_or_default() == wanted(case))
}

fn main(rt: HostRuntime) -> io::Result<()> {
    let mut buffer = zeros::<u8, INPUT>();
    let n = reading::read_full(&mut rt.reader(), &mut buffer)?;
    let rects = replay::count_in(&buffer[..n], CASE, case_agrees);
    replay::say(&rt, "rects ", rects)
}
