// The record: a plan version, a channel list and its steps as bytes, read field by
// field and written. Total: every byte string is judged, its form first, then the
// plan; the writer judges the plan and the slice's length.
#![tactic(auto)]

ghost use Rattle.std.specs.Prelude.{◌≡◌, ◌+◌, ◌≤◌, length, drop, IfOk};
ghost use Rattle.numbers.specs.Numbers.{answer_of};
ghost use Rattle.list.specs.Lists.{channels};
ghost use Rattle.plan.specs.Steps as StepsSpec;
ghost use Rattle.record.specs.Inside.{ChannelInside};
ghost use Rattle.record.specs.Bytes as Bytes;
ghost use Rattle.record.specs.Sides as Sides;
ghost use Rattle.record.specs.Heads as Heads;
ghost use Rattle.record.specs.Reading as Reading;
ghost use Rattle.record.specs.Records as Spec;
ghost use Rattle.record.specs.Told as Told;

use channel::Channel;
use list::{ChannelList, Step};
use numbers::Refusal;
use plan::{Form, Steps};

// What stands before a field's body: the tag and the length of the body.
#[derive(Clone, Copy, PartialEq, Eq)]
struct Head {
    tag: u8,
    size: u16,
}

const HEAD_LENGTH: usize = 3;

impl Head {
    const CHANNEL: Head = Head { tag: 1, size: 6 };

    // A channel with a side above 65,535, a strip, has a tag of its own.
    const STRIP: Head = Head { tag: 3, size: 10 };

    const STEP: Head = Head { tag: 2, size: 5 };

    // The version, where it is not the standard's, is the first field.
    const VERSION: Head = Head { tag: 4, size: 1 };

    // The head that bytes begin with, where it and the body lie inside them.
    #[tactic(auto, using(crate::proofs::Heads::head_short, crate::proofs::Heads::head_taken))]
    fn of(bytes: &[u8]) -> Option<Head>
        ensures { result ≡ Heads.head_inside bytes.now }
    {
        let [tag, low, high] = *bytes.first_chunk::<HEAD_LENGTH>()?;
        let head = Head {
            tag,
            size: u16::from_le_bytes([low, high]),
        };
        (head.field_size() <= bytes.len()).then_some(head)
    }

    // The bytes of the head and the body.
    fn field_size(self) -> usize
        ensures { result ≡ Bytes.head_length + self.size }
    {
        HEAD_LENGTH + self.size as usize
    }

    fn to_bytes(self) -> [u8; HEAD_LENGTH]
        ensures { result ≡ Sides.head self.tag self.size }
    {
        let [low, high] = self.size.to_le_bytes();
        [self.tag, low, high]
    }
}

// A side that tag 1 can hold.
const MAX_SHORT_SIDE: u32 = 65_535;

const VERSION_VALUE: u8 = Steps::HOUSE_VERSION as u8;

const CHANNEL_SIZE: usize = HEAD_LENGTH + Head::CHANNEL.size as usize;

const STRIP_SIZE: usize = HEAD_LENGTH + Head::STRIP.size as usize;

const STEP_SIZE: usize = HEAD_LENGTH + Head::STEP.size as usize;

const VERSION_SIZE: usize = HEAD_LENGTH + Head::VERSION.size as usize;

// What a field holds.
#[derive(Clone, Copy)]
enum Field {
    Channel(Channel),
    Step(Step),
}

// The bytes of a side: four in a strip's field, two in another channel's.
fn side_size(strip: bool) -> usize
    ensures { result ≡ Sides.side_size strip }
{
    if strip { 4 } else { 2 }
}

// The side whose bytes begin at `at`, least byte first.
fn side_at(bytes: &[u8], at: usize, strip: bool) -> u32
    requires { at + Sides.side_size strip ≤ length bytes.now }
    ensures { result ≡ Sides.side_at bytes.now at strip }
{
    if strip {
        u32::from_le_bytes([bytes[at], bytes[at + 1], bytes[at + 2], bytes[at + 3]])
    } else {
        u32::from(u16::from_le_bytes([bytes[at], bytes[at + 1]]))
    }
}

// A field's channel: two sides, whose size goes by the tag, and two shifts.
#[tactic(auto, using(crate::proofs::Parts::channel_read))]
fn field_channel(bytes: &[u8]) -> Channel
    requires { ChannelInside bytes.now }
    ensures { result ≡ Reading.field_channel bytes.now }
{
    let strip = bytes[0] == Head::STRIP.tag;
    let height = HEAD_LENGTH + side_size(strip);
    let shifts = height + side_size(strip);
    Channel {
        width: side_at(bytes, HEAD_LENGTH, strip),
        height: side_at(bytes, height, strip),
        hshift: bytes[shifts],
        vshift: bytes[shifts + 1],
    }
}

// Whether a channel has a side that tag 1 can't hold.
#[tactic(auto, unfolding(crate::specs::Bytes::is_strip))]
fn is_strip(c: Channel) -> bool
    ensures { result ≡ Bytes.is_strip c }
{
    (MAX_SHORT_SIDE < c.width) | (MAX_SHORT_SIDE < c.height)
}

// The channel of a field after so many channels, all of them meta or not.
#[tactic(auto, unfolding(crate::specs::Reading::judge_channel_field, crate::specs::Reading::channel_allowed, crate::specs::Reading::tag_allowed))]
fn read_channel(bytes: &[u8], channels: usize, metas: bool) -> Result<Channel, Refusal>
    requires { ChannelInside bytes.now }
    ensures judged { answer_of result ≡ Reading.judge_channel_field bytes.now channels metas }
    ensures channel { IfOk result (λ c. c ≡ Reading.field_channel bytes.now) }
{
    if ChannelList::MAX_CHANNELS <= channels {
        return Err(Refusal::Count);
    }
    let c = field_channel(bytes);
    let allowed = c.is_allowed() & (!c.is_meta() | metas);
    if !(allowed & ((bytes[0] != Head::STRIP.tag) | is_strip(c))) {
        return Err(Refusal::Form);
    }
    Ok(c)
}

// The step of a field after so many steps.
#[tactic(auto, unfolding(crate::specs::Reading::judge_step_field, plan::specs::Steps::flags_allowed))]
fn read_step(bytes: &[u8], steps: usize) -> Result<Step, Refusal>
    requires { Bytes.step_size ≤ length bytes.now }
    ensures judged { answer_of result ≡ Reading.judge_step_field bytes.now steps }
    ensures step { IfOk result (λ s. s ≡ Reading.field_step bytes.now) }
{
    if ChannelList::MAX_STEPS <= steps {
        return Err(Refusal::Count);
    }
    let flags = bytes[3];
    if Steps::ALL_FLAGS < flags {
        return Err(Refusal::Form);
    }
    let begin = u16::from_le_bytes([bytes[4], bytes[5]]);
    let number = u16::from_le_bytes([bytes[6], bytes[7]]);
    Ok(plan::step_of(flags as u32, begin, number))
}

// The field that bytes begin with, after so many channels, all of them meta or not,
// and so many steps, and the bytes behind it.
#[tactic(auto, using(crate::proofs::Heads::questions))]
fn read_field(
    bytes: &[u8],
    channels: usize,
    metas: bool,
    steps: usize,
) -> Result<(Field, &[u8]), Refusal>
    ensures judged { answer_of result ≡ Reading.judge_field bytes.now channels metas steps }
    ensures field { IfOk result (λ r. r.0 ≡ Heads.field_of bytes.now) }
    ensures rest { IfOk result (λ r. r.1.now ≡ drop (Reading.field_size bytes.now) bytes.now) }
{
    let Some(head) = Head::of(bytes) else {
        return Err(Refusal::Outside);
    };
    let field = if head == Head::STEP {
        Field::Step(read_step(bytes, steps)?)
    } else if ((head == Head::CHANNEL) | (head == Head::STRIP)) & (steps == 0) {
        Field::Channel(read_channel(bytes, channels, metas)?)
    } else {
        return Err(Refusal::Field);
    };
    Ok((field, &bytes[head.field_size()..]))
}

// What the fields of a record with the given version hold, each judged before the
// next. `metas` says whether all channels so far are meta: meta channels stand
// first, so the last one tells. A `while`: each field says where the next begins.
#[tactic(auto, using(crate::proofs::Held::fields))]
fn read_fields(version: u32, bytes: &[u8]) -> Result<Form, Refusal>
    ensures { Told.record_told result ≡ Spec.packed_form (Reading.fields_of version bytes.now) }
{
    let mut list = ChannelList::empty();
    let mut steps = Steps::empty();
    let mut metas = true;
    let mut rest = bytes;
    while !rest.is_empty() {
        let (field, after) = read_field(rest, list.count, metas, steps.count)?;
        match field {
            Field::Step(step) => steps.push(step),
            Field::Channel(c) => {
                let k = list.count;
                metas = c.is_meta();
                list.push(c, k as u8);
            }
        }
        rest = after;
    }
    if list.count == 0 {
        return Err(Refusal::Count);
    }
    let form = Form {
        version,
        list,
        steps,
    };
    Ok(form)
}

// Whether the first field has the version's tag.
fn has_version_tag(bytes: &[u8]) -> bool
    ensures { result ≡ Reading.has_version_tag bytes.now }
{
    bytes.first() == Some(&Head::VERSION.tag)
}

// The version's field.
#[tactic(auto, using(crate::proofs::Heads::questions), unfolding(crate::specs::Reading::judge_version_field))]
fn judge_version(bytes: &[u8]) -> Result<(), Refusal>
    ensures { answer_of result ≡ Reading.judge_version_field bytes.now }
{
    let head = Head::of(bytes).ok_or(Refusal::Outside)?;
    if head != Head::VERSION {
        Err(Refusal::Field)
    } else if bytes[HEAD_LENGTH] != VERSION_VALUE {
        Err(Refusal::Form)
    } else {
        Ok(())
    }
}

// What a record holds, by the questions of its form.
#[tactic(auto, using(crate::proofs::Outcomes::forms))]
pub fn read_form(bytes: &[u8]) -> Result<Form, Refusal>
    ensures { Told.record_told result ≡ Spec.packed_form (Reading.form_of bytes.now) }
{
    if !has_version_tag(bytes) {
        return read_fields(Steps::STANDARD_VERSION, bytes);
    }
    judge_version(bytes)?;
    read_fields(Steps::HOUSE_VERSION, &bytes[VERSION_SIZE..])
}

// What a record holds, by the questions of its form and of its plan.
#[tactic(auto, using(crate::proofs::Outcomes::forms))]
pub fn read_record(bytes: &[u8]) -> Result<Form, Refusal>
    ensures { Told.record_told result ≡ Spec.read_of bytes.now }
{
    let read = read_form(bytes)?;
    read.rewrite()?;
    Ok(read)
}

// Flags, the first channel and the number of channels.
#[tactic(auto, unfolding(crate::specs::Bytes::step_field))]
fn step_field(step: Step) -> [u8; STEP_SIZE]
    ensures { result ≡ Bytes.step_field step }
{
    let [tag, low, high] = Head::STEP.to_bytes();
    let [begin, begin_high] = step.begin.to_le_bytes();
    let [number, number_high] = step.number.to_le_bytes();
    let flags = plan::flags_of(step);
    [
        tag,
        low,
        high,
        flags,
        begin,
        begin_high,
        number,
        number_high,
    ]
}

// `bytes` over `out` from `at` on where it has room for them, else nothing. Not by
// `get_mut(..)` or `split_at_mut_checked(..)`: of a place that stands in an `Option`
// no clause says what it leaves in `out`.
#[tactic(auto, using(crate::proofs::Placed::put_placed, crate::proofs::Placed::put_nothing))]
pub fn put_bytes(bytes: &[u8], at: usize, out: &mut [u8])
    ensures { out.new ≡ Bytes.put_bytes out.old at bytes.now }
{
    if out.len() < at {
        return;
    }
    if out.len() - at < bytes.len() {
        return;
    }
    out[at..at + bytes.len()].copy_from_slice(bytes);
}

// A channel's field into `out` from `at` on, and where it ends.
fn put_channel(c: Channel, at: usize, out: &mut [u8]) -> usize
    requires { at + length (Bytes.channel_field c) ≤ length out.old }
    ensures { (result ≡ at + length (Bytes.channel_field c)) × (out.new ≡ Bytes.placed out.old at (Bytes.channel_field c)) }
{
    let strip = is_strip(c);
    let size = side_size(strip);
    let head = if strip { Head::STRIP } else { Head::CHANNEL };
    let width = at + HEAD_LENGTH;
    let height = width + size;
    let shifts = height + size;
    put_bytes(&head.to_bytes(), at, out);
    put_bytes(&c.width.to_le_bytes()[..size], width, out);
    put_bytes(&c.height.to_le_bytes()[..size], height, out);
    put_bytes(&[c.hshift, c.vshift], shifts, out);
    shifts + 2
}

// The bytes of a channel's field.
#[tactic(auto, using(crate::proofs::Joined::channel_size_lem))]
fn channel_size(c: Channel) -> usize
    ensures { result ≡ length (Bytes.channel_field c) }
{
    if is_strip(c) {
        STRIP_SIZE
    } else {
        CHANNEL_SIZE
    }
}

// The bytes of the channels' fields.
fn channels_size(list: &ChannelList) -> usize
    ensures { result ≡ length (Bytes.channel_fields (channels list.now)) }
{
    (0..list.len()).map(|k| channel_size(list.channel(k))).sum()
}

// The bytes of the version's field, which version 1 has not.
#[tactic(auto, unfolding(crate::specs::Bytes::version_field))]
fn version_size(version: u32) -> usize
    ensures { result ≡ length (Bytes.version_field version) }
{
    if version == Steps::HOUSE_VERSION {
        VERSION_SIZE
    } else {
        0
    }
}

// The version's field, from the beginning of `out` on.
#[tactic(auto, using(crate::proofs::Placed::put_placed, crate::proofs::Placed::placed_none), unfolding(crate::specs::Bytes::version_field))]
fn write_version(version: u32, out: &mut [u8])
    requires { length (Bytes.version_field version) ≤ length out.old }
    ensures { out.new ≡ Bytes.placed out.old 0 (Bytes.version_field version) }
{
    if version == Steps::HOUSE_VERSION {
        let [tag, low, high] = Head::VERSION.to_bytes();
        let field = [tag, low, high, VERSION_VALUE];
        put_bytes(&field, 0, out);
    }
}

// The channels' fields, from `start` on.
#[tactic(auto, using(crate::proofs::Placed::puttings, list::proofs::Channels::channels_all))]
fn write_channels(list: &ChannelList, start: usize, out: &mut [u8])
    requires { start + length (Bytes.channel_fields (channels list.now)) ≤ length out.old }
    ensures { out.new ≡ Bytes.placed out.old start (Bytes.channel_fields (channels list.now)) }
{
    let mut at = start;
    for k in 0..list.len() {
        at = put_channel(list.channel(k), at, out);
    }
}

// The steps' fields, from `start` on. Not one function with `write_channels`, whose
// fields differ in length, so that each says where it ends.
#[tactic(auto, using(crate::proofs::Placed::puttings, crate::proofs::Joined::step_size_lem))]
fn write_steps(steps: &Steps, start: usize, out: &mut [u8])
    requires { start + length (Bytes.step_fields (StepsSpec.steps steps.now)) ≤ length out.old }
    ensures { out.new ≡ Bytes.placed out.old start (Bytes.step_fields (StepsSpec.steps steps.now)) }
{
    for k in 0..steps.len() {
        let field = step_field(steps.step(k));
        put_bytes(&field, start + STEP_SIZE * k, out);
    }
}

// The record of a form whose plan is accepted, and its length; bytes past it stay.
#[tactic(auto, using(crate::proofs::Outcomes::writings))]
pub fn write_record(form: &Form, out: &mut [u8]) -> Result<usize, Refusal>
    ensures { (Told.written_told result ≡ Spec.written_of form.now.version form.now.list form.now.steps out.old) × (out.new ≡ Spec.written_bytes form.now.version form.now.list form.now.steps out.old) }
{
    form.rewrite()?;
    let first = version_size(form.version);
    let start = first + channels_size(&form.list);
    let length = start + STEP_SIZE * form.steps.len();
    if out.len() < length {
        return Err(Refusal::Length);
    }
    write_version(form.version, out);
    write_channels(&form.list, first, out);
    write_steps(&form.steps, start, out);
    Ok(length)
}
