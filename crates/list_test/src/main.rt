// Replays lists, steps and plans (tests/lists.py made `stdin` of the published
// Rust's answers and of cases by the papers' rules, and says how it is laid out).
// Compares answers and whole lists and plans, and prints how many cases of each kind
// there were and how many came out right.
#![tactic(auto)]

ghost use Rattle.std.specs.Prelude.{◌<◌, ◌≤◌};

use list::{ChannelList, Step};
use numbers::Refusal;
use plan::{Form, Steps};
use samples::{narrow_at, sample_at, word_at};
use std::io;
use std::io::Read;

// The bytes of an entry of a list or a plan.
const ENTRY: usize = 12;

// Room for a case.
const CASE: usize = 16_384;

// The number at `at`; 0 for a negative one.
fn number_at(bytes: &[u8], at: usize) -> usize
    ensures { result < 0x8000_0000 }
{
    usize::try_from(sample_at(bytes, at)).unwrap_or(0)
}

// The bytes from `at` on; none past the end.
fn from(bytes: &[u8], at: usize) -> &[u8] {
    bytes.get(at..).unwrap_or(b"")
}

// What follows a list or a plan, which the bytes begin with.
fn after(bytes: &[u8]) -> &[u8] {
    from(bytes, 8 + ENTRY * number_at(bytes, 4))
}

// Which of the `written` entries stands for entry `k`.
fn entry(k: usize, written: usize) -> usize
    ensures { result ≤ k }
{
    k.min(written.saturating_sub(1))
}

// The list that the bytes begin with: its count, how many entries are written, and
// these; the last one stands for those after it.
fn list_of(bytes: &[u8]) -> ChannelList {
    let written = number_at(bytes, 4);
    let mut list = ChannelList::empty();
    list.count = number_at(bytes, 0);
    for k in 0..ChannelList::MAX_CHANNELS {
        let e = 8 + ENTRY * entry(k, written);
        let width = word_at(bytes, e);
        let height = word_at(bytes, e + 4);
        let [hshift, vshift, origin, _] = word_at(bytes, e + 8).to_le_bytes();
        list.widths[k] = width;
        list.heights[k] = height;
        list.hshifts[k] = hshift;
        list.vshifts[k] = vshift;
        list.origins[k] = origin;
    }
    list
}

// The plan that the bytes begin with, in the same form. A number that is too large for
// its type is 0, here and below.
fn steps_of(bytes: &[u8]) -> Steps {
    let written = number_at(bytes, 4);
    let mut steps = Steps::empty();
    steps.count = number_at(bytes, 0);
    for k in 0..ChannelList::MAX_STEPS {
        let e = 8 + ENTRY * entry(k, written);
        let flags = narrow_at(bytes, e).unwrap_or(0);
        let begin = narrow_at(bytes, e + 4).unwrap_or(0);
        let number = narrow_at(bytes, e + 8).unwrap_or(0);
        steps.flags[k] = flags;
        steps.begins[k] = begin;
        steps.numbers[k] = number;
    }
    steps
}

// A plan version, a list and its steps.
fn form_of(bytes: &[u8]) -> Form {
    let list = from(bytes, 4);
    Form {
        version: word_at(bytes, 0),
        list: list_of(list),
        steps: steps_of(after(list)),
    }
}

// Whether what was found has the answer of the file, 0 or a refusal's number, and a value
// that `is_right` takes; after a refusal it has none.
fn found_right<T, F: FnOnce(Option<T>) -> bool>(
    found: Result<T, Refusal>,
    answer: usize,
    is_right: F,
) -> bool
    requires { F.IsAlwaysCallable is_right }
{
    let (number, value) = match found {
        Ok(value) => (0, Some(value)),
        Err(refusal) => (refusal.number() as usize, None),
    };
    (number == answer) & is_right(value)
}

// Whether it is the list that the bytes begin with, or a refusal.
fn is_list(found: Result<ChannelList, Refusal>, answer: usize, bytes: &[u8]) -> bool {
    found_right(
        found,
        answer,
        |list| list.is_none_or(|list| list == list_of(bytes)),
    )
}

// The same of a plan; a refusal has no step.
fn are_steps(found: Result<Steps, Refusal>, answer: usize, bytes: &[u8]) -> bool {
    found_right(
        found,
        answer,
        |steps| steps.unwrap_or(Steps::empty()) == steps_of(bytes),
    )
}

fn step_agrees(bytes: &[u8]) -> bool {
    let list = list_of(bytes);
    let rest = after(bytes);
    let step = Step {
        horizontal: number_at(rest, 0) == 1,
        inplace: number_at(rest, 4) == 1,
        begin: narrow_at(rest, 8).unwrap_or(0),
        number: narrow_at(rest, 12).unwrap_or(0),
    };
    let answer = number_at(rest, 16);
    let checked = found_right(list.check_squeeze_params(step), answer, |_| true);
    checked & is_list(list.step(step), answer, from(rest, 20))
}

// A plan version stands before the list, here and below.
fn plan_agrees(bytes: &[u8]) -> bool {
    let rest = after(after(from(bytes, 4)));
    is_list(form_of(bytes).rewrite(), number_at(rest, 0), from(rest, 4))
}

fn default_agrees(bytes: &[u8]) -> bool {
    let list = from(bytes, 4);
    let rest = after(list);
    let planned = plan::default_squeeze(word_at(bytes, 0), &list_of(list));
    are_steps(planned, number_at(rest, 0), from(rest, 4))
}

fn meant_agrees(bytes: &[u8]) -> bool {
    let rest = after(after(from(bytes, 4)));
    let meant = form_of(bytes).meant_steps();
    are_steps(meant, number_at(rest, 0), from(rest, 4))
}

fn coarse_agrees(bytes: &[u8]) -> bool {
    let list = from(bytes, 4);
    let rest = after(list);
    let count = number_at(rest, 4);
    let coarse = plan::coarse_count(word_at(bytes, 0), &list_of(list));
    found_right(
        coarse,
        number_at(rest, 0),
        |coarse| coarse.unwrap_or(0) == count,
    )
}

// Replays the cases of the next source and kind and says how many `agrees` finds right.
fn kind<R: Read, F: Fn(&[u8]) -> bool>(
    rt: &impl Print,
    input: &mut R,
    name: &str,
    agrees: F,
) -> io::Result<()>
    requires { F.IsAlwaysCallable agrees }
{
    let mut space = [0u8; CASE];
    let tally = replay::count(input, &mut space, agrees)?;
    replay::say(rt, name, tally)
}

fn main(rt: HostRuntime) -> io::Result<()> {
    let mut input = rt.reader();
    kind(&rt, &mut input, "Rust, steps ", step_agrees)?;
    kind(&rt, &mut input, "Rust, plans ", plan_agrees)?;
    kind(&rt, &mut input, "Rust, default plans ", default_agrees)?;
    kind(&rt, &mut input, "Rust, coarse channels ", coarse_agrees)?;
    kind(&rt, &mut input, "own, steps ", step_agrees)?;
    kind(&rt, &mut input, "own, plans ", plan_agrees)?;
    kind(&rt, &mut input, "own, default plans ", default_agrees)?;
    kind(&rt, &mut input, "own, coarse counts ", coarse_agrees)?;
    kind(&rt, &mut input, "own, steps meant ", meant_agrees)?;
    kind(&rt, &mut input, "versions, plans ", plan_agrees)?;
    kind(&rt, &mut input, "versions, default plans ", default_agrees)?;
    kind(&rt, &mut input, "versions, coarse counts ", coarse_agrees)?;
    kind(&rt, &mut input, "versions, steps meant ", meant_agrees)?;
    kind(&rt, &mut input, "origins, steps ", step_agrees)?;
    kind(&rt, &mut input, "origins, plans ", plan_agrees)?;
    Ok(())
}
