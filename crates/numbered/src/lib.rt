// Records from plain numbers, the plan version, four a channel and three a step:
// the questions of the record's writer put to numbers of any size, then its
// bytes. Total: a number that no field could hold is judged by its question,
// never cut.
#![tactic(auto)]

ghost use Rattle.std.specs.Prelude.{◌≡◌, true, ◌≤◌, length, IfOk};
ghost use Rattle.numbers.specs.Numbers.{answer_of};
ghost use Rattle.list.specs.Tables.{all};
ghost use Rattle.list.specs.Lists as Lists;
ghost use Rattle.list.specs.Lists.{max_channels, max_steps};
ghost use Rattle.plan.specs.Steps as StepsSpec;
ghost use Rattle.plan.specs.Steps.{flags_allowed};
ghost use Rattle.numbered.specs.Numbered as Spec;
ghost use Rattle.numbered.specs.Arrays as Arrays;

use channel::Channel;
use list::{ChannelList, Step};
use numbers::Refusal;
use plan::{Form, Steps};

// Width, height and two shifts.
pub const CHANNEL_NUMBERS: usize = 4;

// Flags, first channel and number.
pub const STEP_NUMBERS: usize = 3;

// Whether a list's entries hold a channel's shifts; they hold any side.
#[tactic(auto, unfolding(crate::specs::Numbered::channel_at, crate::specs::Arrays::shifts_fit))]
fn shifts_fit(numbers: &[u32; CHANNEL_NUMBERS]) -> bool
    ensures { result ≡ Arrays.shifts_fit (Spec.channel_at numbers.now 0) }
{
    let [_, _, hshift, vshift] = *numbers;
    let largest = Channel::META as u32;
    (hshift <= largest) & (vshift <= largest)
}

// The same of every channel.
fn channels_fit(channels: &[[u32; CHANNEL_NUMBERS]]) -> bool
    ensures { result ≡ all Arrays.shifts_fit (Arrays.channels_in channels.now) }
{
    channels.iter().all(|numbers| shifts_fit(numbers))
}

// Question 4, of the steps' flags.
fn flags_allowed(steps: &[[u32; STEP_NUMBERS]]) -> bool
    ensures { result ≡ all flags_allowed (Arrays.flags_in steps.now) }
{
    let largest = Steps::ALL_FLAGS as u32;
    steps.iter().all(|numbers| numbers[0] <= largest)
}

// The channel of numbers whose shifts fit.
#[tactic(auto, using(crate::proofs::Fields::channel_fit), unfolding(crate::specs::Numbered::channel_at))]
fn channel_of(numbers: &[u32; CHANNEL_NUMBERS]) -> Channel
    requires { Arrays.shifts_fit (Spec.channel_at numbers.now 0) ≡ true }
    ensures { result ≡ Spec.channel_at numbers.now 0 }
{
    let [width, height, hshift, vshift] = *numbers;
    Channel {
        width,
        height,
        hshift: hshift as u8,
        vshift: vshift as u8,
    }
}

// The list of channels whose shifts fit, each with its own position.
#[tactic(auto, using(crate::proofs::Chunks::fillings))]
fn list_of(channels: &[[u32; CHANNEL_NUMBERS]]) -> ChannelList
    requires { (length channels.now ≤ max_channels) × (all Arrays.shifts_fit (Arrays.channels_in channels.now) ≡ true) }
    ensures { result ≡ Lists.packed (Arrays.channels_in channels.now) }
{
    let mut list = ChannelList::empty();
    for numbers in channels {
        let k = list.count;
        list.push(channel_of(numbers), k as u8);
    }
    list
}

// A first channel or number of channels as an array's entry. A larger one is
// held to the largest, which question 7 refuses as it does the number itself.
fn held(n: u32) -> u16
    ensures { result ≡ Arrays.held n }
{
    n.min(u16::MAX as u32) as u16
}

// The step of flags, a first channel and a number, both held to an entry.
fn step_of(numbers: &[u32; STEP_NUMBERS]) -> Step
    ensures { result ≡ Arrays.step_by Arrays.held numbers.now 0 }
{
    let [flags, first, number] = *numbers;
    plan::step_of(flags, held(first), held(number))
}

// The steps.
#[tactic(auto, using(crate::proofs::Chunks::fillings))]
fn steps_of(steps: &[[u32; STEP_NUMBERS]]) -> Steps
    requires { length steps.now ≤ max_steps }
    ensures { result ≡ StepsSpec.packed (Arrays.steps_in steps.now) }
{
    let mut plan = Steps::empty();
    for numbers in steps {
        plan.push(step_of(numbers));
    }
    plan
}

// The version, the list and the steps of the numbers, by questions 3 to 11.
#[tactic(auto, using(crate::proofs::Formed::refusals))]
fn form_of(version: u32, channels: &[u32], steps: &[u32]) -> Result<Form, Refusal>
    ensures judged { answer_of result ≡ Spec.judge_numbers version channels.now steps.now }
    ensures form { IfOk result (λ form. form ≡ Arrays.form_of version channels.now steps.now) }
{
    let (channels, _) = channels.as_chunks();
    let (steps, _) = steps.as_chunks();
    let count = channels.len();
    let step_count = steps.len();
    if !((1 <= count)
        & (count <= ChannelList::MAX_CHANNELS)
        & (step_count <= ChannelList::MAX_STEPS))
    {
        return Err(Refusal::Count);
    }
    if !(channels_fit(channels) & flags_allowed(steps)) {
        return Err(Refusal::Form);
    }
    let form = Form {
        version,
        list: list_of(channels),
        steps: steps_of(steps),
    };
    form.rewrite()?;
    Ok(form)
}

// Questions 3 to 11 and 14, then the record over the front of `record` and its
// length in the first number of `length`. A remainder is question 14's, so that
// the plan is judged before it, and once more by the record's writer. The slice for
// the length is the C function's: question 14 asks for it too, before a byte is
// written, since a refusal changes nothing.
pub fn record_of_numbers(
    version: u32,
    channels: &[u32],
    steps: &[u32],
    record: &mut [u8],
    length: &mut [u32],
) -> Result<(), Refusal>
    ensures { (answer_of result ≡ Spec.answer version channels.now steps.now «record».old length.old) × («record».new ≡ Spec.record_after version channels.now steps.now «record».old length.old) × (length.new ≡ Spec.length_after version channels.now steps.now «record».old length.old) }
{
    let form = form_of(version, channels, steps)?;
    let (_, channels_left) = channels.as_chunks::<CHANNEL_NUMBERS>();
    let (_, steps_left) = steps.as_chunks::<STEP_NUMBERS>();
    let whole = channels_left.is_empty() & steps_left.is_empty();
    if !(whole & (1 <= length.len())) {
        return Err(Refusal::Length);
    }
    let written = record::write_record(&form, record)?;
    length[0] = written as u32;
    Ok(())
}
