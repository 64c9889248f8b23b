// The layout of a record as numbers: the steps that are meant, the rewritten list,
// each channel's origin, and how many there are. Total: the record is judged, then the
// slices; after a refusal every slice is as it was.
#![tactic(auto)]

ghost use Rattle.std.specs.Prelude.{◌≡◌, true, List, [], ◌∷◌, ℕ, ◌*◌, ◌<◌, ◌≤◌, length};
ghost use Rattle.numbers.specs.Numbers.{answer_of};
ghost use Rattle.list.specs.Lists as Lists;
ghost use Rattle.list.specs.Lists.{max_channels, max_steps};
ghost use Rattle.plan.specs.Steps as StepsSpec;
ghost use Rattle.plan.specs.Version.{rule_of};
ghost use Rattle.plan.specs.Coarse.{coarse_count};
ghost use Rattle.layout.specs.Entries.{Entries};
ghost use Rattle.layout.specs.Layout as Spec;

use channel::Channel;
use list::{ChannelList, Step};
use numbered::{CHANNEL_NUMBERS, STEP_NUMBERS};
use numbers::Refusal;
use plan::{Plan, Steps};

// Version, steps, channels and coarse channels.
const COUNT_NUMBERS: usize = 4;

// What a layout has of an entry: N numbers. An `impl From` would have to stand beside
// the entry's type, in crates that don't know a layout's form.
trait Numbers<const N: usize> {
    ghost numbers_of: { Self → List ℕ };

    fn numbers(self) -> [u32; N]
        ensures { result ≡ numbers_of self };
}

// Flags, first channel and number.
impl Numbers<STEP_NUMBERS> for Step {
    ghost numbers_of = { Spec.step_numbers };

    #[tactic(auto, unfolding(crate::specs::Layout::step_numbers))]
    fn numbers(self) -> [u32; STEP_NUMBERS] {
        [
            plan::flags_of(self) as u32,
            self.begin as u32,
            self.number as u32,
        ]
    }
}

// Width, height and two shifts.
impl Numbers<CHANNEL_NUMBERS> for Channel {
    ghost numbers_of = { Spec.channel_numbers };

    #[tactic(auto, unfolding(crate::specs::Layout::channel_numbers))]
    fn numbers(self) -> [u32; CHANNEL_NUMBERS] {
        [
            self.width,
            self.height,
            self.hshift as u32,
            self.vshift as u32,
        ]
    }
}

// An origin.
impl Numbers<1> for u8 {
    ghost numbers_of = { λ origin. origin ∷ [] };

    fn numbers(self) -> [u32; 1] {
        [self as u32]
    }
}

// The numbers of `count` entries, one after the other, over the front of `out`.
fn put_entries<const N: usize, T: Numbers<N>, F: Fn(usize) -> T>(
    count: usize,
    entry: F,
    out: &mut [u32],
)
    requires asked { (k : ℕ) → k < count → F.pre entry k }
    requires room { N * count ≤ length out.old }
    ensures { Entries T.numbers_of (F.post entry) count out.old out.new }
{
    for k in 0..count {
        out[N * k..N * k + N].copy_from_slice(&entry(k).numbers());
    }
}

fn put_steps(steps: &Steps, out: &mut [u32])
    requires { length (Spec.all_steps (StepsSpec.steps steps.now)) ≤ length out.old }
    ensures { out.new ≡ Spec.over (Spec.all_steps (StepsSpec.steps steps.now)) out.old }
{
    put_entries(steps.len(), |k| steps.step(k), out);
}

fn put_channels(list: &ChannelList, out: &mut [u32])
    requires { length (Spec.all_channels (Lists.channels list.now)) ≤ length out.old }
    ensures { out.new ≡ Spec.over (Spec.all_channels (Lists.channels list.now)) out.old }
{
    put_entries(list.len(), |k| list.channel(k), out);
}

fn put_origins(list: &ChannelList, out: &mut [u32])
    requires { length (Lists.origins list.now) ≤ length out.old }
    ensures { out.new ≡ Spec.over (Lists.origins list.now) out.old }
{
    put_entries(list.len(), |k| list.origins[k], out);
}

// The rows of a layout that fit the slices; `coarse` channels are coarse.
fn put_layout(
    version: u32,
    plan: &Plan,
    coarse: usize,
    counts: &mut [u32],
    steps: &mut [u32],
    channels: &mut [u32],
    origins: &mut [u32],
)
    requires { (coarse ≡ coarse_count (rule_of version).stop (Lists.channels plan.now.reached)) × (Spec.all_fit (Spec.rows_of version (StepsSpec.steps plan.now.steps) (Lists.channels plan.now.reached) (Lists.origins plan.now.reached)) (Spec.rows counts.old steps.old channels.old origins.old) ≡ true) }
    ensures { (counts.new ≡ Spec.over (Spec.counts_of version (StepsSpec.steps plan.now.steps) (Lists.channels plan.now.reached)) counts.old) × (steps.new ≡ Spec.over (Spec.all_steps (StepsSpec.steps plan.now.steps)) steps.old) × (channels.new ≡ Spec.over (Spec.all_channels (Lists.channels plan.now.reached)) channels.old) × (origins.new ≡ Spec.over (Lists.origins plan.now.reached) origins.old) }
{
    let numbers = [
        version,
        plan.steps.len() as u32,
        plan.reached.len() as u32,
        coarse as u32,
    ];
    counts[..COUNT_NUMBERS].copy_from_slice(&numbers);
    put_steps(&plan.steps, steps);
    put_channels(&plan.reached, channels);
    put_origins(&plan.reached, origins);
}

// The layout of the record in `bytes`: over the fronts of the slices the four
// counts, the steps, the channels and their origins; the rest of each stays.
pub fn layout_of(
    bytes: &[u8],
    counts: &mut [u32],
    steps: &mut [u32],
    channels: &mut [u32],
    origins: &mut [u32],
) -> Result<(), Refusal>
    ensures { (answer_of result ≡ Spec.answer bytes.now (Spec.rows counts.old steps.old channels.old origins.old)) × (Spec.rows counts.new steps.new channels.new origins.new ≡ Spec.after bytes.now (Spec.rows counts.old steps.old channels.old origins.old)) }
{
    let form = record::read_form(bytes)?;
    let plan = form.plan()?;
    let coarse = plan::coarse_count(form.version, &plan.reached)?;
    let count = plan.reached.len();
    let room = (COUNT_NUMBERS <= counts.len())
        & (STEP_NUMBERS * plan.steps.len() <= steps.len())
        & (CHANNEL_NUMBERS * count <= channels.len())
        & (count <= origins.len());
    if !room {
        return Err(Refusal::Length);
    }
    put_layout(
        form.version,
        &plan,
        coarse,
        counts,
        steps,
        channels,
        origins,
    );
    Ok(())
}
