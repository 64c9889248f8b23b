// The listing of a record, as the program squeeze-list prints it: record bytes in,
// text bytes out. Total.
#![tactic(auto)]

ghost use Rattle.std.specs.Prelude.{◌≡◌, true, [], ◌++◌, ◌<◌, ◌≤◌, length, IfOk, OnErr};
ghost use Rattle.numbers.specs.Numbers.{answer_of};
ghost use Rattle.channel.specs.Channel.{sides_fit};
ghost use Rattle.list.specs.Tables.{all};
ghost use Rattle.list.specs.Lists.{max_channels, max_steps, channels};
ghost use Rattle.plan.specs.Steps as StepsSpec;
ghost use Rattle.record.specs.Records.{read_answer};
ghost use Rattle.listing.specs.Text as Text;
ghost use Rattle.listing.specs.Putting as Putting;
ghost use Rattle.listing.specs.Putting.{Fits};
ghost use Rattle.listing.specs.Listing as Spec;

use arrayvec::ArrayString;
use channel::Channel;
use itoa::Buffer;
use list::{ChannelList, Step};
use numbers::Refusal;
use plan::{Plan, Steps};

// Room for any listing: at most 64 step lines and 256 channel lines.
pub const LISTING_ROOM: usize = 8192;

// "judges the first 4,096 bytes of standard input".
pub const JUDGED_BYTES: usize = 4096;

// The text that a listing is put on, in fixed memory. Its parts are put by functions
// that can't fail, not by an `impl Display` of a line: no clause of the library says
// that a `write!` succeeds where there is room, and a listing may not be refused.
type Page = ArrayString<LISTING_ROOM>;

// The digits of a number of at most seven.
#[tactic(auto, using(crate::proofs::Digits::printed_is_decimal))]
fn put_number(n: usize, page: &mut Page)
    requires { (n < Putting.number_limit) × Fits page.old.bytes (Text.decimal n) }
    ensures { page.new.bytes ≡ page.old.bytes ++ Text.decimal n }
{
    let mut buffer = Buffer::new();
    page.push_str(buffer.format(n));
}

// "steps 3".
fn put_numbered(word: &str, n: usize, page: &mut Page)
    requires { (n < Putting.number_limit) × Fits page.old.bytes (Text.numbered word.now n) }
    ensures { page.new.bytes ≡ page.old.bytes ++ Text.numbered word.now n }
{
    page.push_str(word);
    put_number(n, page);
    page.push_str("\n");
}

// Two numbers with a space between them.
fn put_two(first: usize, second: usize, page: &mut Page)
    requires { (first < Putting.number_limit) × (second < Putting.number_limit) × Fits page.old.bytes (Text.two first second) }
    ensures { page.new.bytes ≡ page.old.bytes ++ Text.two first second }
{
    put_number(first, page);
    page.push_str(" ");
    put_number(second, page);
}

fn direction_word(horizontal: bool) -> &'static str
    ensures { result.now ≡ Text.direction_word horizontal }
{
    if horizontal { "h " } else { "v " }
}

fn place_word(inplace: bool) -> &'static str
    ensures { result.now ≡ Text.place_word inplace }
{
    if inplace { "in " } else { "out " }
}

// "h in 0 1".
#[tactic(auto, unfolding(crate::specs::Text::step_line))]
fn put_step(step: Step, page: &mut Page)
    requires { Fits page.old.bytes (Text.step_line step) }
    ensures { page.new.bytes ≡ page.old.bytes ++ Text.step_line step }
{
    page.push_str(direction_word(step.horizontal));
    page.push_str(place_word(step.inplace));
    put_two(step.begin as usize, step.number as usize, page);
    page.push_str("\n");
}

// The two shifts, or "m m".
fn put_shifts(c: Channel, page: &mut Page)
    requires { Fits page.old.bytes (Text.shift_words c) }
    ensures { page.new.bytes ≡ page.old.bytes ++ Text.shift_words c }
{
    if c.is_meta() {
        page.push_str("m m");
    } else {
        put_two(c.hshift as usize, c.vshift as usize, page);
    }
}

// "10 9 1 0".
#[tactic(auto, unfolding(crate::specs::Text::channel_line))]
fn put_channel(c: Channel, page: &mut Page)
    requires { (sides_fit c ≡ true) × Fits page.old.bytes (Text.channel_line c) }
    ensures { page.new.bytes ≡ page.old.bytes ++ Text.channel_line c }
{
    put_two(c.width as usize, c.height as usize, page);
    page.push_str(" ");
    put_shifts(c, page);
    page.push_str("\n");
}

// Not one function with `put_channels` over a closure: a channel's line asks for sides
// that fit and a step's for nothing, which the closure would have to say of each index.
fn put_steps(steps: &Steps, page: &mut Page)
    requires { Fits page.old.bytes (Text.step_lines (StepsSpec.steps steps.now)) }
    ensures { page.new.bytes ≡ page.old.bytes ++ Text.step_lines (StepsSpec.steps steps.now) }
{
    for k in 0..steps.len() {
        put_step(steps.step(k), page);
    }
}

fn put_channels(list: &ChannelList, page: &mut Page)
    requires { (all sides_fit (channels list.now) ≡ true) × Fits page.old.bytes (Text.channel_lines (channels list.now)) }
    ensures { page.new.bytes ≡ page.old.bytes ++ Text.channel_lines (channels list.now) }
{
    for k in 0..list.len() {
        put_channel(list.channel(k), page);
    }
}

// The lines of a plan's steps and of the list that it leaves, and the coarse count.
fn put_plan(plan: &Plan, coarse: usize, page: &mut Page)
    requires { (all sides_fit (channels plan.now.reached) ≡ true) × (coarse ≤ max_channels) × Fits page.old.bytes (Spec.lines_text (StepsSpec.steps plan.now.steps) (channels plan.now.reached) coarse) }
    ensures { page.new.bytes ≡ page.old.bytes ++ Spec.lines_text (StepsSpec.steps plan.now.steps) (channels plan.now.reached) coarse }
{
    put_numbered("steps ", plan.steps.len(), page);
    put_steps(&plan.steps, page);
    put_numbered("channels ", plan.reached.len(), page);
    put_channels(&plan.reached, page);
    put_numbered("coarse ", coarse, page);
}

// The listing of an accepted record on an empty page; after a refusal the page is as
// it was.
fn put_record(bytes: &[u8], page: &mut Page) -> Result<(), Refusal>
    requires { page.old.bytes ≡ [] }
    ensures judged { answer_of result ≡ read_answer bytes.now }
    ensures put { IfOk result (λ _. page.new.bytes ≡ Spec.listing bytes.now) }
    ensures kept { OnErr result (page.new ≡ page.old) }
{
    let form = record::read_form(bytes)?;
    let plan = form.plan()?;
    let coarse = plan::coarse_count(form.version, &plan.reached)?;
    put_plan(&plan, coarse, page);
    Ok(())
}

fn put_listing(bytes: &[u8], page: &mut Page)
    requires { page.old.bytes ≡ [] }
    ensures { page.new.bytes ≡ Spec.listing bytes.now }
{
    if let Err(refusal) = put_record(bytes, page) {
        put_numbered("refused ", refusal.number() as usize, page);
    }
}

// The listing of an accepted record over the front of `text`, and its length as
// the first of `size`; the rest of both stays. A text of `LISTING_ROOM` bytes has
// room for every listing. The length goes to a lent slice, as the C function has it,
// and is no result: question 14 asks for its room before a byte is written, since a
// refusal changes nothing.
pub fn list_record(bytes: &[u8], text: &mut [u8], size: &mut [u32]) -> Result<(), Refusal>
    ensures { (answer_of result ≡ Spec.list_answer bytes.now text.old size.old) × (text.new ≡ Spec.text_after bytes.now text.old size.old) × (size.new ≡ Spec.size_after bytes.now text.old size.old) }
{
    let mut page = Page::new();
    put_record(bytes, &mut page)?;
    let length = page.len();
    if !((length <= text.len()) & (1 <= size.len())) {
        return Err(Refusal::Length);
    }
    record::put_bytes(page.as_str().as_bytes(), 0, text);
    size[0] = length as u32;
    Ok(())
}

// What the program prints for the bytes of its input, over the front of `text`;
// the rest of it stays.
pub fn list_input(input: &[u8], text: &mut [u8; LISTING_ROOM]) -> usize
    ensures value { (result ≡ length (Spec.printed input.now)) × (text.new ≡ Spec.printed_over input.now text.old) }
    ensures room { result ≤ length text.new }
{
    let mut page = Page::new();
    put_listing(&input[..JUDGED_BYTES.min(input.len())], &mut page);
    record::put_bytes(page.as_str().as_bytes(), 0, text);
    page.len()
}
