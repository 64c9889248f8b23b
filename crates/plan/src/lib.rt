// Plans (the Rust's `default_squeeze` and `meta_apply_transforms`): the steps in flat
// arrays, what a plan version, a list and its steps come to, the default plan of
// either version, the run of a plan over a list, and the coarse count. Total.
#![tactic(auto)]

ghost use Rattle.std.specs.Prelude.{◌≡◌, true, [], ◌+◌, ◌<◌, ◌≤◌, length, min, IfOk, Ok};
ghost use Rattle.numbers.specs.Numbers.{answer_of};
ghost use Rattle.channel.specs.Channel.{sides_fit};
ghost use Rattle.list.specs.Tables.{all};
ghost use Rattle.list.specs.Lists.{max_channels, max_steps, channels, packed};
ghost use Rattle.list.specs.Questions.{judge_list, stepped_of};
ghost use Rattle.plan.specs.Steps as Spec;
ghost use Rattle.plan.specs.Adding.{pushed, added, appended};
ghost use Rattle.plan.specs.Version as Version;
ghost use Rattle.plan.specs.Default as Default;
ghost use Rattle.plan.specs.Coarse.{is_coarse, coarse_of, counted_of};
ghost use Rattle.plan.specs.Plans as Plans;

use channel::Channel;
use list::{ChannelList, Step, halved};
use numbers::Refusal;

// The arrays lie flat by the rule for the list's: fixed memory and no heap. A step's
// flags keep their eight bits, so that a plan can carry what question 4 refuses.
#[derive(Clone, Copy, PartialEq, Eq, Debug)]
pub struct Steps {
    pub count: usize,
    pub flags: [u8; 64],
    pub begins: [u16; 64],
    pub numbers: [u16; 64],
}

// What a record holds: a plan version, a channel list and the steps on it. The version
// is a number, since any may come: a type of two values would ask more of callers.
#[derive(Clone, Copy, PartialEq, Eq, Debug)]
pub struct Form {
    pub version: u32,
    pub list: ChannelList,
    pub steps: Steps,
}

// What a form comes to: the steps that are meant, and the list that they leave.
#[derive(Clone, Copy, PartialEq, Eq, Debug)]
pub struct Plan {
    pub steps: Steps,
    pub reached: ChannelList,
}

// What a plan version says of its default plan: the side at which it stops, up
// to which a channel that is not meta is coarse, and whether it has chroma steps
// first.
#[derive(Clone, Copy)]
struct DefaultRule {
    stop: u32,
    chroma: bool,
}

// The channels that are not meta: where they begin, how many they are, and the sides
// of the first.
#[derive(Clone, Copy)]
struct Others {
    begin: u16,
    number: u16,
    width: u32,
    height: u32,
}

// "flags 1 (bit 0 horizontal, bit 1 in place)". Not by `From`: a step is more than its
// flags.
#[tactic(auto, unfolding(crate::specs::Steps::flags_of))]
pub fn flags_of(step: Step) -> u8
    ensures { result ≡ Spec.flags_of step }
{
    (step.horizontal as u8) + 2 * (step.inplace as u8)
}

// The step with these flags, of which two bits tell.
pub fn step_of(flags: u32, begin: u16, number: u16) -> Step
    ensures { result ≡ Spec.step_of flags begin number }
{
    Step {
        horizontal: flags % 2 == 1,
        inplace: flags / 2 % 2 == 1,
        begin,
        number,
    }
}

impl Steps {
    // The plan versions: the standard's, and the house plan for larger screens.
    pub const STANDARD_VERSION: u32 = 1;

    pub const HOUSE_VERSION: u32 = 2;

    // The flags of a step that is horizontal and in place.
    pub const ALL_FLAGS: u8 = 3;

    #[tactic(auto, unfolding(crate::specs::Steps::packed))]
    pub fn empty() -> Self
        ensures { result ≡ Spec.packed [] }
    {
        Steps {
            count: 0,
            flags: [0u8; 64],
            begins: [0u16; 64],
            numbers: [0u16; 64],
        }
    }

    // Entry `k`; zeros past the arrays.
    pub fn step(&self, k: usize) -> Step
        ensures { result ≡ Spec.step_at self.now k }
    {
        if ChannelList::MAX_STEPS <= k {
            return Step::default();
        }
        step_of(self.flags[k] as u32, self.begins[k], self.numbers[k])
    }

    // How many steps are meant.
    pub fn len(&self) -> usize
        ensures { result ≡ min self.now.count max_steps }
    {
        self.count.min(ChannelList::MAX_STEPS)
    }

    // `step` after the last one; where there is no room nothing changes.
    #[tactic(auto, unfolding(crate::specs::Adding::pushed, crate::specs::Adding::added))]
    pub fn push(&mut self, step: Step)
        ensures { self.new ≡ added self.old step }
    {
        let k = self.count;
        if k < ChannelList::MAX_STEPS {
            self.flags[k] = flags_of(step);
            self.begins[k] = step.begin;
            self.numbers[k] = step.number;
            self.count = k + 1;
        }
    }

    // The step where the plan has it: a plan's rules are tests of sides, which this
    // takes from its callers.
    #[tactic(auto, using(crate::proofs::Appended::added_room), unfolding(crate::specs::Adding::appended))]
    fn push_if(&mut self, test: bool, step: Step)
        requires { self.old.count + length (Default.when test step) ≤ max_steps }
        ensures { self.new ≡ appended self.old (Default.when test step) }
    {
        if test {
            self.push(step);
        }
    }

    // Question 4, of the steps' flags.
    fn flags_allowed(&self) -> bool
        ensures { result ≡ all Spec.flags_allowed (Spec.all_flags self.now) }
    {
        (0..self.len()).all(|k| self.flags[k] <= Steps::ALL_FLAGS)
    }
}

impl DefaultRule {
    // The sides at which the versions stop (the first is the Rust's
    // `MAX_FIRST_PREVIEW_SIZE`).
    const STANDARD_SIDE: u32 = 8;

    const HOUSE_SIDE: u32 = 32;

    #[tactic(auto, unfolding(crate::specs::Version::rule_of))]
    fn of(version: u32) -> Self
        ensures { result ≡ Version.rule_of version }
    {
        if version == Steps::HOUSE_VERSION {
            DefaultRule {
                stop: DefaultRule::HOUSE_SIDE,
                chroma: false,
            }
        } else {
            DefaultRule {
                stop: DefaultRule::STANDARD_SIDE,
                chroma: true,
            }
        }
    }
}

impl Others {
    // A step in place on all of them.
    fn step(self, horizontal: bool) -> Step
        ensures { result ≡ Default.step horizontal true self.begin self.number }
    {
        Step {
            horizontal,
            inplace: true,
            begin: self.begin,
            number: self.number,
        }
    }
}

// Question 4, of a plan version.
#[tactic(auto, unfolding(crate::specs::Version::is_version))]
pub fn is_version(version: u32) -> bool
    ensures { result ≡ Version.is_version version }
{
    (version == Steps::STANDARD_VERSION) | (version == Steps::HOUSE_VERSION)
}

fn lowered(stop: u32, side: u32) -> u32
    ensures { result ≡ Default.lowered stop side }
{
    if stop < side { halved(side) } else { side }
}

// The turns of the default plan after the steps: in-place steps on all other channels
// while a side of the first is above `stop`. A `while`, as only the sides say when it
// ends: it counts nothing.
fn rounds(steps: &mut Steps, stop: u32, others: Others)
    requires { (1 ≤ stop) × (steps.old.count + length (Default.rounds (others.width + others.height) stop others.begin others.number others.width others.height) ≤ max_steps) }
    ensures { steps.new ≡ appended steps.old (Default.rounds (others.width + others.height) stop others.begin others.number others.width others.height) }
{
    let mut width = others.width;
    let mut height = others.height;
    while (stop < width) | (stop < height) {
        steps.push_if(stop < width, others.step(true));
        steps.push_if(stop < height, others.step(false));
        width = lowered(stop, width);
        height = lowered(stop, height);
    }
}

// The in-place steps of the default plan after the steps: vertical first on tall
// pictures, then the turns.
fn all_channels(steps: &mut Steps, stop: u32, others: Others)
    requires { (1 ≤ stop) × (steps.old.count + length (Default.all_channels stop others.begin others.number others.width others.height) ≤ max_steps) }
    ensures { steps.new ≡ appended steps.old (Default.all_channels stop others.begin others.number others.width others.height) }
{
    let w = others.width;
    let h = others.height;
    if (w <= h) & (stop < h) {
        steps.push(others.step(false));
        let mut lower = others;
        lower.height = halved(h);
        rounds(steps, stop, lower);
    } else {
        rounds(steps, stop, others);
    }
}

// The chroma steps of a default plan that has such steps, after the steps: on the
// second and third of the other channels, where the second has the sides of the first.
fn chroma(steps: &mut Steps, wanted: bool, others: Others, second: Channel)
    requires { (steps.old.count + 2 ≤ max_steps) × (others.begin < max_channels) }
    ensures { steps.new ≡ appended steps.old (Default.chroma wanted others.begin others.number others.width others.height second) }
{
    let w = others.width;
    let h = others.height;
    let horizontal = Step {
        horizontal: true,
        inplace: false,
        begin: others.begin + 1,
        number: 2,
    };
    let mut vertical = horizontal;
    vertical.horizontal = false;
    let alike = wanted & (2 < others.number) & (second.width == w) & (second.height == h);
    steps.push_if(alike & (1 < w), horizontal);
    steps.push_if(alike & (1 < h), vertical);
}

// Whether a channel is meta or has no side above `stop` (the Rust's
// `is_meta_or_small`).
#[tactic(auto, unfolding(crate::specs::Coarse::is_coarse))]
fn is_coarse(channel: Channel, stop: u32) -> bool
    ensures { result ≡ is_coarse stop channel }
{
    channel.is_meta() | ((channel.width <= stop) & (channel.height <= stop))
}

// The leading meta channels.
fn meta_count(list: &ChannelList) -> usize
    ensures { result ≡ Default.meta_count (channels list.now) }
{
    (0..list.len())
        .take_while(|&k| list.channel(k).is_meta())
        .count()
}

// The leading coarse channels of a rewritten list under a plan version, which is all
// that is judged.
pub fn coarse_count(version: u32, list: &ChannelList) -> Result<usize, Refusal>
    ensures { counted_of result ≡ coarse_of version list.now }
{
    if !is_version(version) {
        return Err(Refusal::Form);
    }
    let stop = DefaultRule::of(version).stop;
    let count = (0..list.len())
        .take_while(|&k| is_coarse(list.channel(k), stop))
        .count();
    Ok(count)
}

// The default plan of a list with a channel that is not meta and no side above
// the limit.
fn default_steps(rule: DefaultRule, list: &ChannelList) -> Steps
    requires { (1 ≤ rule.stop) × (Default.meta_count (channels list.now) < min list.now.count max_channels) × (all sides_fit (channels list.now) ≡ true) }
    ensures value { result ≡ Spec.packed (Default.default_steps rule (channels list.now)) }
    ensures room { result.count ≤ max_steps }
{
    let k = meta_count(list);
    let first = list.channel(k);
    let others = Others {
        begin: k as u16,
        number: (list.len() - k) as u16,
        width: first.width,
        height: first.height,
    };
    let mut steps = Steps::empty();
    chroma(&mut steps, rule.chroma, others, list.channel(k + 1));
    all_channels(&mut steps, rule.stop, others);
    steps
}

// The list with its unused entries 0, each channel's own position as its origin.
fn tidied(list: &ChannelList) -> ChannelList
    ensures { result ≡ packed (channels list.now) }
{
    let mut tidy = ChannelList::empty();
    for k in 0..list.len() {
        tidy.push(list.channel(k), k as u8);
    }
    tidy
}

// Questions 7 to 11 of each step on a list that passes questions 3 to 5, and
// the list that the steps leave.
fn run(list: &ChannelList, steps: &Steps) -> Result<ChannelList, Refusal>
    requires { judge_list list.now ≡ 0 }
    ensures { stepped_of list.now result ≡ Plans.ran (Spec.steps steps.now) list.now }
{
    let mut now = tidied(list);
    for k in 0..steps.len() {
        now = now.step_on(steps.step(k))?;
    }
    Ok(now)
}

impl Form {
    // Questions 3 to 5: each is put to the list and to the plan before the next, so that
    // the list is not judged first by itself.
    #[tactic(auto, unfolding(crate::specs::Plans::judge_form))]
    fn judge(&self) -> Result<(), Refusal>
        ensures { answer_of result ≡ Plans.judge_form self.now.version self.now.list self.now.steps }
    {
        if !(self.list.count_allowed() & (self.steps.count <= ChannelList::MAX_STEPS)) {
            return Err(Refusal::Count);
        }
        if !(self.list.channels_allowed()
            & (self.steps.flags_allowed() & is_version(self.version)))
        {
            return Err(Refusal::Form);
        }
        if !self.list.total_allowed() {
            return Err(Refusal::Samples);
        }
        Ok(())
    }

    // The steps that are meant, by questions 3 to 6: no steps mean the default plan,
    // the version's.
    pub fn meant_steps(&self) -> Result<Steps, Refusal>
        ensures value { Plans.planned_of result ≡ Plans.meant_steps self.now.version self.now.list self.now.steps }
        ensures room { IfOk result (λ steps. steps.count ≤ max_steps) }
    {
        self.judge()?;
        if self.steps.count != 0 {
            return Ok(self.steps);
        }
        if self.list.len() <= meta_count(&self.list) {
            return Err(Refusal::Default);
        }
        Ok(default_steps(DefaultRule::of(self.version), &self.list))
    }

    // The steps that are meant and the list that they leave, by questions 3 to 11.
    #[tactic(auto, using(crate::proofs::Answers::meanings))]
    pub fn plan(&self) -> Result<Plan, Refusal>
        ensures reached { Plans.reached_of self.now.list result ≡ Plans.rewritten self.now.version self.now.list self.now.steps }
        ensures meant { IfOk result (λ plan. Plans.planned_of (Ok plan.steps) ≡ Plans.meant_steps self.now.version self.now.list self.now.steps) }
        ensures room { IfOk result (λ plan. plan.steps.count ≤ max_steps) }
    {
        let steps = self.meant_steps()?;
        let reached = run(&self.list, &steps)?;
        Ok(Plan { steps, reached })
    }

    // The list alone.
    pub fn rewrite(&self) -> Result<ChannelList, Refusal>
        ensures { stepped_of self.now.list result ≡ Plans.rewritten self.now.version self.now.list self.now.steps }
    {
        let plan = self.plan()?;
        Ok(plan.reached)
    }
}

// The default plan of a list, by questions 3 to 6.
pub fn default_squeeze(version: u32, list: &ChannelList) -> Result<Steps, Refusal>
    ensures value { Plans.planned_of result ≡ Plans.planned version list.now }
    ensures room { IfOk result (λ steps. steps.count ≤ max_steps) }
{
    let form = Form {
        version,
        list: *list,
        steps: Steps::empty(),
    };
    form.meant_steps()
}
