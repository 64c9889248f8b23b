// The channel list (the Rust's `check_squeeze_params` and the Squeeze arm of
// `meta_apply_single_transform`): flat arrays filled up to a count, the questions put
// to a list and to a step on it, and the list that a step leaves; each channel has its
// origin. Total: any count, any shift, any origin and any unused entry may come in.
#![tactic(auto)]

ghost use Rattle.std.specs.Prelude.{◌≡◌, true, false, cond, ◌&&◌, ◌||◌, not, [], ◌+◌, ◌-◌, ◌<◌, ◌≤◌, min, leb, get_or};
ghost use Rattle.numbers.specs.Numbers.{answer_of};
ghost use Rattle.channel.specs.Channel.{meta_shift, is_meta};
ghost use Rattle.list.specs.Tables.{table, all};
ghost use Rattle.list.specs.Lists as Lists;
ghost use Rattle.list.specs.Questions as Questions;
ghost use Rattle.list.specs.Entries as Entries;
ghost use Rattle.list.specs.Accepted.{StepAccepted};

use channel::Channel;
use numbers::Refusal;

// The arrays lie flat, each with its unused entries: a rule of the project ("A list
// starts as flat [0; 256] arrays"), and fixed memory without a heap. `count` may be
// any number, since question 3 is put to it: an invariant that bounds it would ask
// more of callers.
#[derive(Clone, Copy, PartialEq, Eq, Debug)]
pub struct ChannelList {
    pub count: usize,
    pub widths: [u32; 256],
    pub heights: [u32; 256],
    pub hshifts: [u8; 256],
    pub vshifts: [u8; 256],
    pub origins: [u8; 256],
}

// A squeeze step (the Rust's `SqueezeParams`).
#[derive(Clone, Copy, PartialEq, Eq, Debug, Default)]
pub struct Step {
    pub horizontal: bool,
    pub inplace: bool,
    pub begin: u16,
    pub number: u16,
}

impl Step {
    // The index behind its last channel.
    pub fn end(self) -> usize
        ensures { result ≡ self.begin + self.number }
    {
        self.begin as usize + self.number as usize
    }

    // Where its residuals start in the list that it leaves of one of `count` channels.
    pub fn residuals_at(self, count: usize) -> usize
        ensures { result ≡ cond self.inplace (self.begin + self.number) count }
    {
        if self.inplace { self.end() } else { count }
    }
}

// The channel with another side in the step's direction.
fn with_side(c: Channel, horizontal: bool, side: u32) -> Channel
    ensures { result ≡ Lists.sided (λ _. side) horizontal c }
{
    let mut sided = c;
    if horizontal {
        sided.width = side;
    } else {
        sided.height = side;
    }
    sided
}

// Question 10, of one channel.
#[tactic(auto, unfolding(crate::specs::Questions::has_sides))]
fn has_sides(c: Channel) -> bool
    ensures { result ≡ Questions.has_sides c }
{
    (0 < c.width) & (0 < c.height)
}

// The shift in the step's direction.
fn shift(c: Channel, horizontal: bool) -> u8
    ensures { result ≡ cond horizontal c.hshift c.vshift }
{
    if horizontal { c.hshift } else { c.vshift }
}

// The channel with its shift in the step's direction one more; a meta channel
// stays.
#[tactic(auto, using(crate::proofs::Shifts::raised_meta), unfolding(crate::specs::Lists::raised))]
fn raised(c: Channel, horizontal: bool) -> Channel
    requires { is_meta c ≡ false → cond horizontal c.hshift c.vshift < meta_shift }
    ensures { result ≡ Lists.raised horizontal c }
{
    if c.is_meta() {
        return c;
    }
    let mut raised = c;
    if horizontal {
        raised.hshift = c.hshift + 1;
    } else {
        raised.vshift = c.vshift + 1;
    }
    raised
}

// Question 11, of one channel's shifts: a channel that is not meta has room for
// one more in the step's direction.
#[tactic(auto, using(crate::proofs::Shifts::kept_found))]
fn keeps_shifts(c: Channel, horizontal: bool) -> bool
    ensures { result ≡ Questions.shifts_kept horizontal c }
{
    let room = shift(c, horizontal) < Channel::MAX_SHIFT;
    c.is_meta() | (c.has_shifts_allowed() & room)
}

// "the side halved, rounded up".
pub fn halved(side: u32) -> u32
    ensures { result ≡ Lists.halved side }
{
    side - side / 2
}

fn average(c: Channel, horizontal: bool) -> Channel
    requires { Questions.shifts_kept horizontal c ≡ true }
    ensures { result ≡ Lists.average horizontal c }
{
    let half = halved(c.side(horizontal));
    raised(with_side(c, horizontal, half), horizontal)
}

fn residual(c: Channel, horizontal: bool) -> Channel
    requires { Questions.shifts_kept horizontal c ≡ true }
    ensures { result ≡ Lists.residual horizontal c }
{
    let side = c.side(horizontal);
    let rest = side - halved(side);
    raised(with_side(c, horizontal, rest), horizontal)
}

// Whether `k` is one of `number` indices from `start` on.
#[tactic(auto, unfolding(crate::specs::Entries::is_inside))]
fn is_inside(start: usize, number: usize, k: usize) -> bool
    ensures { result ≡ Entries.is_inside start number k }
{
    start <= k && k - start < number
}

// The index of the channel that entry `k` of the list that a step leaves is made
// of, where its residuals start at `residuals`.
#[tactic(auto, unfolding(crate::specs::Entries::source))]
fn source(step: Step, residuals: usize, k: usize) -> usize
    ensures { result ≡ Entries.source step residuals k }
{
    let number = step.number as usize;
    if k < residuals {
        return k;
    }
    if k - residuals < number {
        return k - residuals + step.begin as usize;
    }
    k - number
}

// Entry `k` of the list that a step leaves, made of the channel `c`.
#[tactic(auto, unfolding(crate::specs::Entries::entry_allowed, crate::specs::Entries::entry))]
fn entry(c: Channel, step: Step, residuals: usize, k: usize) -> Channel
    requires { Entries.entry_allowed step residuals k c ≡ true }
    ensures { result ≡ Entries.entry step residuals k c }
{
    let number = step.number as usize;
    if is_inside(step.begin as usize, number, k) {
        return average(c, step.horizontal);
    }
    if is_inside(residuals, number, k) {
        return residual(c, step.horizontal);
    }
    c
}

impl ChannelList {
    pub const MAX_CHANNELS: usize = 256;

    pub const MAX_STEPS: usize = 64;

    pub const MAX_SAMPLES: u64 = numbers::MAX_SAMPLES as u64;

    // The list without a channel.
    #[tactic(auto, unfolding(crate::specs::Lists::holding))]
    pub fn empty() -> Self
        ensures { result ≡ Lists.packed [] }
    {
        ChannelList {
            count: 0,
            widths: [0u32; 256],
            heights: [0u32; 256],
            hshifts: [0u8; 256],
            vshifts: [0u8; 256],
            origins: [0u8; 256],
        }
    }

    // Entry `k` of the arrays, zeros past them.
    pub fn channel(&self, k: usize) -> Channel
        ensures { result ≡ Lists.channel_at self.now k }
    {
        if ChannelList::MAX_CHANNELS <= k {
            return Channel::default();
        }
        Channel {
            width: self.widths[k],
            height: self.heights[k],
            hshift: self.hshifts[k],
            vshift: self.vshifts[k],
        }
    }

    // The origin of entry `k`, 0 past the array.
    fn origin(&self, k: usize) -> u8
        ensures { result ≡ get_or self.now.origins k 0 }
    {
        self.origins.get(k).copied().unwrap_or(0)
    }

    // How many channels are meant.
    pub fn len(&self) -> usize
        ensures { result ≡ min self.now.count Lists.max_channels }
    {
        self.count.min(ChannelList::MAX_CHANNELS)
    }

    // A channel and its origin after the last; where the list is full nothing changes.
    #[tactic(auto, unfolding(crate::specs::Lists::pushed))]
    pub fn push(&mut self, c: Channel, origin: u8)
        ensures { self.new ≡ Lists.pushed self.old c origin }
    {
        let k = self.count;
        if k < ChannelList::MAX_CHANNELS {
            self.widths[k] = c.width;
            self.heights[k] = c.height;
            self.hshifts[k] = c.hshift;
            self.vshifts[k] = c.vshift;
            self.origins[k] = origin;
            self.count = k + 1;
        }
    }

    // Question 7.
    fn range_allowed(&self, step: Step) -> bool
        ensures { result ≡ (leb 1 step.number && leb (step.begin + step.number) (min self.now.count Lists.max_channels)) }
    {
        (1 <= step.number) & (step.end() <= self.len())
    }

    // Question 8: of the first and the last of a range.
    fn kinds_alike(&self, step: Step) -> bool
        requires { 1 ≤ step.number }
        ensures { result ≡ Questions.alike (is_meta (Lists.channel_at self.now step.begin)) (is_meta (Lists.channel_at self.now (step.begin + step.number - 1))) }
    {
        let first = self.channel(step.begin as usize);
        let last = self.channel(step.end() - 1);
        first.is_meta() == last.is_meta()
    }

    // Question 9.
    fn place_allowed(&self, step: Step) -> bool
        ensures { result ≡ (not (is_meta (Lists.channel_at self.now step.begin)) || step.inplace) }
    {
        !self.channel(step.begin as usize).is_meta() | step.inplace
    }

    // Question 10. Not one function with `range_keeps_shifts` over a closure: its clause
    // would have to say what the closure gives of each channel of the range, which is
    // all that these two say.
    fn range_has_sides(&self, step: Step) -> bool
        ensures { result ≡ all Questions.has_sides (table (Lists.channel_at self.now) step.begin step.number) }
    {
        (step.begin as usize..step.end()).all(|k| has_sides(self.channel(k)))
    }

    // Question 11, of the shifts.
    fn range_keeps_shifts(&self, step: Step) -> bool
        ensures { result ≡ all (Questions.shifts_kept step.horizontal) (table (Lists.channel_at self.now) step.begin step.number) }
    {
        let horizontal = step.horizontal;
        (step.begin as usize..step.end()).all(|k| keeps_shifts(self.channel(k), horizontal))
    }

    // Questions 7 to 11, of a step on the list.
    #[tactic(auto, using(crate::proofs::Found::questions), unfolding(crate::specs::Questions::judge_step))]
    fn judge_step(&self, step: Step) -> Result<(), Refusal>
        ensures { answer_of result ≡ Questions.judge_step step (Lists.channels self.now) }
    {
        if !self.range_allowed(step) {
            return Err(Refusal::Range);
        }
        if !self.kinds_alike(step) {
            return Err(Refusal::Kinds);
        }
        if !self.place_allowed(step) {
            return Err(Refusal::Place);
        }
        if !self.range_has_sides(step) {
            return Err(Refusal::Empty);
        }
        if ChannelList::MAX_CHANNELS < self.len() + step.number as usize {
            return Err(Refusal::Room);
        }
        if !self.range_keeps_shifts(step) {
            return Err(Refusal::Room);
        }
        Ok(())
    }

    // The list that a step leaves: each channel has the origin of the one that it is
    // made of.
    fn next_list(&self, step: Step) -> ChannelList
        requires { StepAccepted step (Lists.channels self.now) }
        ensures { result ≡ Lists.next_list step self.now }
    {
        let count = self.len();
        let residuals = step.residuals_at(count);
        let after = count + step.number as usize;
        let mut next = ChannelList::empty();
        for k in 0..after {
            let j = source(step, residuals, k);
            let origin = self.origin(j);
            let c = entry(self.channel(j), step, residuals, k);
            next.push(c, origin);
        }
        next
    }

    // Question 3.
    #[tactic(auto, unfolding(crate::specs::Questions::count_allowed))]
    pub fn count_allowed(&self) -> bool
        ensures { result ≡ Questions.count_allowed self.now.count }
    {
        (1 <= self.count) & (self.count <= ChannelList::MAX_CHANNELS)
    }

    // Question 4.
    pub fn channels_allowed(&self) -> bool
        ensures { result ≡ Questions.channels_allowed (Lists.channels self.now) }
    {
        let count = self.len();
        let mut plain = false; // the channel before is not meta
        for k in 0..count {
            let c = self.channel(k);
            let meta = c.is_meta();
            if !c.is_allowed() | (plain & meta) {
                return false;
            }
            plain = !meta;
        }
        true
    }

    // All samples of the list, counted up to one past the limit.
    pub fn total(&self) -> u64
        ensures { result ≡ Questions.counted_total (Lists.channels self.now) }
    {
        let count = self.len();
        let mut sum = 0u64;
        for k in 0..count {
            let more = self.channel(k).samples();
            if ChannelList::MAX_SAMPLES - sum < more {
                return ChannelList::MAX_SAMPLES + 1;
            }
            sum += more;
        }
        sum
    }

    // Question 5.
    #[tactic(auto, using(crate::proofs::Totals::counted_leb))]
    pub fn total_allowed(&self) -> bool
        ensures { result ≡ Questions.total_allowed (Lists.channels self.now) }
    {
        self.total() <= ChannelList::MAX_SAMPLES
    }

    // Questions 3 to 5.
    #[tactic(auto, unfolding(crate::specs::Questions::judge_list))]
    pub fn judge(&self) -> Result<(), Refusal>
        ensures { answer_of result ≡ Questions.judge_list self.now }
    {
        if !self.count_allowed() {
            return Err(Refusal::Count);
        }
        if !self.channels_allowed() {
            return Err(Refusal::Form);
        }
        if !self.total_allowed() {
            return Err(Refusal::Samples);
        }
        Ok(())
    }

    // Questions 3 to 5 of the list, then 7 to 11 of the step on it.
    #[tactic(auto, using(crate::proofs::Taken::list_answer_lem, crate::proofs::Taken::step_answer_lem, numbers::proofs::Refusals::number_some))]
    pub fn check_squeeze_params(&self, step: Step) -> Result<(), Refusal>
        ensures { answer_of result ≡ Questions.step_answer step self.now }
    {
        self.judge()?;
        self.judge_step(step)
    }

    // The next list, by questions 7 to 11 alone: for a list that passed questions 3
    // to 5.
    pub fn step_on(&self, step: Step) -> Result<ChannelList, Refusal>
        ensures { Questions.stepped_of self.now result ≡ Questions.taken_on step self.now }
    {
        self.judge_step(step)?;
        Ok(self.next_list(step))
    }

    // The next list or the refusal; the list, which comes by value, stays the caller's.
    pub fn step(self, step: Step) -> Result<ChannelList, Refusal>
        ensures { Questions.stepped_of self result ≡ Questions.taken step self }
    {
        self.check_squeeze_params(step)?;
        Ok(self.next_list(step))
    }
}
