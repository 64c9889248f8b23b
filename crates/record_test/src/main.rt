// Replays records (tests/records.py made `stdin`): each with its listing and, where
// it is accepted, the numbers of its layout, and written back; and inputs of the
// program squeeze-list, each with what it prints. Every byte of the text, of the
// record and of the room around them is compared, and every number of a layout, and
// each call that may be short of room is made with a slice that is one too short too.
// Prints, for each kind of case, how many there were and how many came out right.
#![tactic(auto)]

ghost use Rattle.std.specs.Prelude.{◌<◌, ◌≤◌};

use listing::LISTING_ROOM;
use numbers::Refusal;
use plan::Form;
use replay::{Tally, read_case, read_word, say};
use samples::word_at;
use std::io;
use std::io::Read;

// The kinds of records, in the order of `stdin`.
const RECORDS: [&str; 12] = [
    "printed ",
    "cuts ",
    "refusals ",
    "order ",
    "limits ",
    "sizes ",
    "metas ",
    "plans ",
    "bytes ",
    "strips ",
    "versions ",
    "origins ",
];

// Room for a record or an input.
const INPUT_ROOM: usize = 10_240;

// What stands in a room where nothing was written.
const MARK: u8 = 0xa5;

const MARKED: u32 = 0xa5a5_a5a5;

// Room for the numbers of a layout as bytes, and for each of its rows with one
// number more.
const LAYOUT_ROOM: usize = 6_144;

const COUNTS: usize = 4;

const COUNTS_ROOM: usize = 5;

const STEPS_ROOM: usize = 193;

const CHANNELS_ROOM: usize = 1_025;

const ORIGINS_ROOM: usize = 257;

// Whether `bytes` were written at the start of a room, and nothing past them.
fn holds(room: &[u8; LISTING_ROOM], bytes: &[u8]) -> bool {
    room.strip_prefix(bytes)
        .is_some_and(|rest| rest.iter().all(|byte| *byte == MARK))
}

// Whether a room begins with the numbers of a row, and nothing was written past them.
fn holds_row(room: &[u32], row: &[[u8; 4]]) -> bool {
    room.split_at_checked(row.len()).is_some_and(|(front, rest)| {
        let wanted = row.iter().map(|number| u32::from_le_bytes(*number));
        front.iter().copied().eq(wanted) & rest.iter().all(|number| *number == MARKED)
    })
}

// Whether the listing of a record is refused so where the text has `n` bytes and its
// length `m` numbers, and nothing is written; none where a slice has no room.
fn lists_nothing(bytes: &[u8], n: usize, m: usize, refusal: Refusal) -> Option<bool> {
    let mut room = [MARK; LISTING_ROOM];
    let mut size = [MARKED; 2];
    let found = listing::list_record(bytes, room.get_mut(..n)?, size.get_mut(..m)?);
    Some((found == Err(refusal)) & (size == [MARKED; 2]) & holds(&room, b""))
}

// Whether `text` is the line of a refusal: `refused` and its number, whose digits are
// put together here, so that the listing's own are not asked about themselves.
fn is_refusal(text: &[u8], refusal: Refusal) -> bool {
    let number = refusal.number();
    let digits = [b'0' + (number / 10 % 10) as u8, b'0' + (number % 10) as u8];
    let written = if number < 10 {
        &digits[1..]
    } else {
        &digits[..]
    };
    match text.strip_prefix(b"refused ") {
        Some(rest) => rest.strip_suffix(b"\n") == Some(written),
        None => false,
    }
}

// Whether the listing of a record is `text`.
fn lists(bytes: &[u8], text: &[u8]) -> Option<bool> {
    let n = text.len();
    let short = lists_nothing(bytes, n.checked_sub(1)?, 1, Refusal::Length)?;
    let sizeless = lists_nothing(bytes, n, 0, Refusal::Length)?;
    let mut room = [MARK; LISTING_ROOM];
    let mut size = [MARKED; 2];
    let listed = listing::list_record(bytes, &mut room, &mut size);
    let [found, beside] = size;
    let sized = (found as usize == n) & (beside == MARKED);
    Some(short & sizeless & listed.is_ok() & sized & holds(&room, text))
}

// Whether a record is written back as it was read.
fn writes_back(form: &Form, bytes: &[u8]) -> Option<bool> {
    let n = bytes.len();
    let mut small = [MARK; LISTING_ROOM];
    let short = record::write_record(form, small.get_mut(..n.checked_sub(1)?)?);
    let refused = (short == Err(Refusal::Length)) & holds(&small, b"");
    let mut room = [MARK; LISTING_ROOM];
    let written = record::write_record(form, &mut room);
    Some(refused & (written == Ok(n)) & holds(&room, bytes))
}

// How many numbers the four slices of a layout have.
#[derive(Clone, Copy, Default)]
struct Lengths {
    counts: usize,
    steps: usize,
    channels: usize,
    origins: usize,
}

impl Lengths {
    // Those that a layout with these rows needs; its counts have the version, how many
    // steps there are, and how many channels.
    fn needed(rows: &[u8]) -> Lengths {
        let steps = word_at(rows, 4) as usize;
        let channels = word_at(rows, 8) as usize;
        Lengths {
            counts: COUNTS,
            steps: 3 * steps,
            channels: 4 * channels,
            origins: channels,
        }
    }

    // The calls for a layout that needs these: each of the four slices one number short,
    // then all as long as they need, then each one longer.
    fn trials(self) -> [Lengths; 6] {
        let counts = self.counts.saturating_sub(1);
        let steps = self.steps.saturating_sub(1);
        let channels = self.channels.saturating_sub(1);
        let origins = self.origins.saturating_sub(1);
        let longer = Lengths {
            counts: self.counts.saturating_add(1),
            steps: self.steps.saturating_add(1),
            channels: self.channels.saturating_add(1),
            origins: self.origins.saturating_add(1),
        };
        [
            Lengths { counts, ..self },
            Lengths { steps, ..self },
            Lengths { channels, ..self },
            Lengths { origins, ..self },
            self,
            longer,
        ]
    }

    // Whether no slice is shorter than in `needed`.
    fn cover(self, needed: Lengths) -> bool {
        (needed.counts <= self.counts)
            & (needed.steps <= self.steps)
            & (needed.channels <= self.channels)
            & (needed.origins <= self.origins)
    }
}

// Rooms for the four slices of a layout.
#[derive(Drop)]
struct Rooms {
    counts: [u32; COUNTS_ROOM],
    steps: [u32; STEPS_ROOM],
    channels: [u32; CHANNELS_ROOM],
    origins: [u32; ORIGINS_ROOM],
}

impl Rooms {
    fn marked() -> Rooms {
        Rooms {
            counts: [MARKED; COUNTS_ROOM],
            steps: [MARKED; STEPS_ROOM],
            channels: [MARKED; CHANNELS_ROOM],
            origins: [MARKED; ORIGINS_ROOM],
        }
    }

    // The answer of the layout call with slices of these lengths; none where one has no
    // room.
    fn lay(&mut self, bytes: &[u8], lent: Lengths) -> Option<Result<(), Refusal>> {
        Some(layout::layout_of(
            bytes,
            self.counts.get_mut(..lent.counts)?,
            self.steps.get_mut(..lent.steps)?,
            self.channels.get_mut(..lent.channels)?,
            self.origins.get_mut(..lent.origins)?,
        ))
    }

    // Whether they hold the rows of a layout, of these lengths and four bytes a number,
    // and nothing past them.
    fn hold(&self, rows: &[u8], lengths: Lengths) -> Option<bool> {
        let (numbers, cut) = rows.as_chunks();
        let (counts, rest) = numbers.split_at_checked(lengths.counts)?;
        let (steps, rest) = rest.split_at_checked(lengths.steps)?;
        let (channels, rest) = rest.split_at_checked(lengths.channels)?;
        let (origins, rest) = rest.split_at_checked(lengths.origins)?;
        Some(
            holds_row(&self.counts, counts)
                & holds_row(&self.steps, steps)
                & holds_row(&self.channels, channels)
                & holds_row(&self.origins, origins)
                & rest.is_empty()
                & cut.is_empty(),
        )
    }
}

// Whether the layout call with slices of these lengths comes out right, of a record that
// is read so; none where a slice has no room.
fn lays(
    bytes: &[u8],
    rows: &[u8],
    read: Result<(), Refusal>,
    needed: Lengths,
    lent: Lengths,
) -> Option<bool> {
    let wanted = if lent.cover(needed) {
        read
    } else {
        read.and(Err(Refusal::Length))
    };
    let mut rooms = Rooms::marked();
    let found = rooms.lay(bytes, lent)?;
    let left = match wanted {
        Ok(()) => rooms.hold(rows, needed)?,
        Err(_) => rooms.hold(b"", Lengths::default())?,
    };
    Some((found == wanted) & left)
}

// Whether the layout of a record that is read so comes out right in every trial.
fn lays_out(bytes: &[u8], rows: &[u8], read: Result<(), Refusal>) -> bool {
    let needed = Lengths::needed(rows);
    needed.trials().iter().all(|lent| lays(bytes, rows, read, needed, *lent) == Some(true))
}

fn accepted(form: &Form, bytes: &[u8], text: &[u8], rows: &[u8]) -> Option<bool> {
    Some(lists(bytes, text)? & writes_back(form, bytes)? & lays_out(bytes, rows, Ok(())))
}

// A refused record has the refusal's line for its listing, and no layout.
fn refused(refusal: Refusal, bytes: &[u8], text: &[u8], rows: &[u8]) -> Option<bool> {
    let listed = is_refusal(text, refusal) & lists_nothing(bytes, 0, 0, refusal)?;
    Some(listed & rows.is_empty() & lays_out(bytes, rows, Err(refusal)))
}

fn record_agrees(bytes: &[u8], text: &[u8], rows: &[u8]) -> bool {
    let agrees = match record::read_record(bytes) {
        Ok(form) => accepted(&form, bytes, text, rows),
        Err(refusal) => refused(refusal, bytes, text, rows),
    };
    agrees == Some(true)
}

// Whether `text` is what the program prints for an input.
fn prints(input: &[u8], text: &[u8]) -> bool {
    let mut room = [MARK; LISTING_ROOM];
    let length = listing::list_input(input, &mut room);
    (length == text.len()) & holds(&room, text)
}

// Replays the cases of the next kind, three slices each (a record or an input, its text
// and its layout's rows), and says how many of them `agrees` finds right. Not by
// `replay::count`, whose cases are one slice each.
fn kind<R: Read, F: Fn(&[u8], &[u8], &[u8]) -> bool>(
    rt: &impl Print,
    input: &mut R,
    name: &str,
    agrees: F,
) -> io::Result<()>
    requires { F.IsAlwaysCallable agrees }
{
    let mut bytes = [0u8; INPUT_ROOM];
    let mut text = [0u8; LISTING_ROOM];
    let mut rows = [0u8; LAYOUT_ROOM];
    let cases = read_word(input)?.unwrap_or(0);
    let mut right = 0u64;
    for _ in 0..cases {
        let bytes = read_case(input, &mut bytes)?;
        let text = read_case(input, &mut text)?;
        let rows = read_case(input, &mut rows)?;
        if let (Some(bytes), Some(text), Some(rows)) = (bytes, text, rows)
            && agrees(bytes, text, rows)
        {
            right += 1;
        }
    }
    let tally = Tally {
        cases: cases as u64,
        right,
    };
    say(rt, name, tally)
}

fn main(rt: HostRuntime) -> io::Result<()> {
    let mut input = rt.reader();
    for name in RECORDS {
        kind(&rt, &mut input, name, record_agrees)?;
    }
    kind(
        &rt,
        &mut input,
        "inputs ",
        |input, text, _| prints(input, text),
    )
}
