// The plan run: a picture rebuilt from its pyramid, the steps of a plan taken last
// first. A channel is made at its home (crate places), in the picture or in the
// work slice by turns, from an average and a residual that lie in the pyramid or,
// if a step has made them, at their homes in the other slice: a step moves no other
// sample. It tells whether a step leaves the plain range. Total: the questions to list
// and plan, then the one to the slices' lengths, each refusal with its number and both
// lent slices untouched.
#![tactic(auto)]

ghost use Rattle.std.specs.Prelude.{◌≡◌, cond, ◌&&◌, ◌+◌, ◌<◌, ◌≤◌, length, min};
ghost use Rattle.range.specs.Range.{mark_of};
ghost use Rattle.numbers.specs.Numbers.{answer_of};
ghost use Rattle.list.specs.Lists.{max_channels, channels};
ghost use Rattle.plan.specs.Steps as Spec;
ghost use Rattle.places.specs.Places.{is_odd, bare, area, residuals_at, places_in, places_from};
ghost use Rattle.places.specs.Laid.{part, written};
ghost use Rattle.runs.specs.Runs.{channel_back, rebuilt};
ghost use Rattle.runs.specs.Marks.{channel_marked, run_marked};
ghost use Rattle.rebuild.specs.Rebuild as Rebuild;
ghost use Rattle.rebuild.specs.Run.{sides_of, start_of, made_of, lying_in, channel_from, channel_from_marked, other, ChannelFits, PutFits, Wrote, RangeFits, Ranged, range_held_marked, Lying, Marked, Closed, TakenBack, places_all, first_steps, StepsFit, RunFits, Back, SettleFits, Settled};

use list::{ChannelList, Step};
use numbers::Refusal;
use places::{Place, Places, Slot};
use plan::{Form, Steps};
use range::Marking;
use tile::Sides;

// The sides of a place as those of a tile: no `From`, since both types are of other
// crates.
fn sides(place: Place) -> Sides
    ensures { result ≡ sides_of place }
{
    Sides {
        width: place.width as usize,
        height: place.height as usize,
    }
}

// A channel from its average and its residual, and its mark: one tile without outer
// lines, which is never refused.
fn channel_back<M: Marking>(
    place: Place,
    horizontal: bool,
    avg: &[i32],
    res: &[i32],
    out: &mut [i32],
) -> bool
    requires { ChannelFits horizontal place avg.now res.now out.old }
    ensures { (out.new ≡ channel_back horizontal (bare place) avg.now res.now) × (result ≡ (M.marks && channel_marked horizontal (bare place) avg.now res.now)) }
{
    let average = sides(place.average(horizontal));
    let residual = sides(place.residual(horizontal));
    let none = &avg[0..0];
    let told = tile::squeeze_tile::<M>(
        horizontal,
        average,
        residual,
        sides(place),
        avg,
        res,
        none,
        none,
        out,
    );
    told.unwrap_or(false)
}

// Where an average or a residual lies, from a start on: in the pyramid, or at its
// home if a step has made it.
#[derive(Clone, Copy)]
enum Source {
    Pyramid(usize),
    Home(usize),
}

impl Source {
    // The n samples of it; `other` is the slice of its home.
    #[tactic(auto, using(crate::proofs::Lent::lent))]
    fn lying<'a>(self, n: usize, pyramid: &'a [i32], other: &'a [i32]) -> &'a [i32]
        requires { (start_of self + n ≤ length pyramid.now) × (length other.now ≡ length pyramid.now) }
        ensures { result.now ≡ lying_in self n pyramid.now other.now }
    {
        match self {
            Source::Pyramid(start) => &pyramid[start..start + n],
            Source::Home(home) => &other[home..home + n],
        }
    }

    // What no step has made, to its place in the picture; the rest stands there.
    fn settle(self, n: usize, at: usize, pyramid: &[i32], picture: &mut [i32])
        requires { (start_of self + n ≤ length pyramid.now) × (at + n ≤ length picture.old) }
        ensures { picture.new ≡ cond (made_of self) picture.old (written at (part (start_of self) n pyramid.now) picture.old) }
    {
        if let Source::Pyramid(start) = self {
            buffer::copy(&pyramid[start..start + n], &mut picture[at..at + n]);
        }
    }
}

// A channel to its home in `out`, from its average and its residual, and its mark.
fn put_channel<'a, M: Marking>(
    place: Place,
    horizontal: bool,
    avg: Source,
    res: Source,
    pyramid: &'a [i32],
    other: &'a [i32],
    out: &mut [i32],
) -> bool
    requires { PutFits horizontal place avg res pyramid.now other.now out.old }
    ensures { (out.new ≡ written place.home (channel_from horizontal place avg res pyramid.now other.now) out.old) × (result ≡ (M.marks && channel_from_marked horizontal place avg res pyramid.now other.now)) }
{
    let a = avg.lying(place.average(horizontal).area(), pyramid, other);
    let r = res.lying(place.residual(horizontal).area(), pyramid, other);
    let end = place.home + place.area();
    channel_back::<M>(place, horizontal, a, r, &mut out[place.home..end])
}

// The same where the place's slot says whether it goes to the work slice or to the
// picture; what a step has made of it stands in the other of the two. Here and below
// the slices stay parameters: a struct that holds a `&mut` is no plainer, since each
// contract then has to say that it is still the caller's.
fn make_channel<M: Marking>(
    place: Place,
    horizontal: bool,
    avg: Source,
    res: Source,
    pyramid: &[i32],
    picture: &mut [i32],
    work: &mut [i32],
) -> bool
    requires { PutFits horizontal place avg res pyramid.now picture.old work.old }
    ensures { Wrote (is_odd place.slot) place.home (channel_from horizontal place avg res pyramid.now (other (is_odd place.slot) picture.old work.old)) picture.old work.old picture.new work.new × (result ≡ (M.marks && channel_from_marked horizontal place avg res pyramid.now (other (is_odd place.slot) picture.old work.old))) }
{
    match place.slot {
        Slot::Odd => put_channel::<M>(place, horizontal, avg, res, pyramid, picture, work),
        Slot::Unmade | Slot::Even => {
            put_channel::<M>(place, horizontal, avg, res, pyramid, work, picture)
        }
    }
}

// Where the channels of a list lie while its steps are taken back: as many of the array
// as there are places. An `ArrayVec` would have a length of its own, which each clause
// would have to say is the count of the places.
#[derive(Drop)]
struct Sources {
    entries: [Source; 256],
}

impl Sources {
    // All at the pyramid's start.
    fn new() -> Self {
        Sources {
            entries: [Source::Pyramid(0); 256],
        }
    }

    // All in the pyramid, one after the other; by `map` of the whole array a rebuild of
    // 64 by 64 takes a tenth more instructions.
    fn lay(&mut self, places: &Places)
        ensures { Lying places.now self.new }
    {
        let starts = places.starts();
        for k in 0..places.len() {
            self.entries[k] = Source::Pyramid(starts[k]);
        }
    }

    // The channels of a range now stand at their homes.
    fn mark(&mut self, begin: usize, end: usize, places: &Places)
        requires { (begin ≤ end) × (end ≤ max_channels) }
        ensures { Marked begin end places.now self.old self.new }
    {
        for k in begin..end {
            self.entries[k] = Source::Home(places.places[k].home);
        }
    }

    // The `number` entries at `at` go: those behind them close up.
    fn close(&mut self, count: usize, at: usize, number: usize)
        requires { (at ≤ count) × (count + number ≤ max_channels) }
        ensures { Closed at count number self.old self.new }
    {
        self.entries.copy_within(at + number..count + number, at);
    }
}

// The channels of a step's range, each at its home, from their averages and
// residuals, and whether one of them has a mark; the places are those of the list
// before the step, the sources those of the list after it.
fn make_range<M: Marking>(
    places: &Places,
    step: Step,
    sources: &Sources,
    pyramid: &[i32],
    picture: &mut [i32],
    work: &mut [i32],
) -> bool
    requires { RangeFits step (places_in places.now) sources.now pyramid.now picture.old work.old }
    ensures { Ranged step (places_in places.now) sources.now pyramid.now picture.old work.old picture.new work.new × (result ≡ (M.marks && range_held_marked step (places_in places.now) sources.now pyramid.now picture.old work.old)) }
{
    let begin = step.begin as usize;
    let number = step.number as usize;
    let residuals = places.residuals_at(step);
    let mut outside = false;
    for i in 0..number {
        let place = places.places[begin + i];
        let avg = sources.entries[begin + i];
        let res = sources.entries[residuals + i];
        outside |= make_channel::<M>(place, step.horizontal, avg, res, pyramid, picture, work);
    }
    outside
}

// The places that the first n steps of a plan leave.
fn take_steps(places: &mut Places, list: &ChannelList, steps: &Steps, n: usize)
    requires { StepsFit n steps.now (places_from 0 (channels list.now)) }
    ensures { places_in places.new ≡ places_all (first_steps steps.now n) (places_from 0 (channels list.now)) }
{
    places.reset(list);
    for k in 0..n {
        places.step(steps.step(k));
    }
}

// A step taken back, at the places of the list before it, and its mark: its range is
// made, and its residuals are no entries any more.
fn take_back<M: Marking>(
    places: &Places,
    step: Step,
    sources: &mut Sources,
    pyramid: &[i32],
    picture: &mut [i32],
    work: &mut [i32],
) -> bool
    requires { RangeFits step (places_in places.now) sources.old pyramid.now picture.old work.old }
    ensures { TakenBack step (places_in places.now) sources.old pyramid.now picture.old work.old sources.new picture.new work.new × (result ≡ (M.marks && range_held_marked step (places_in places.now) sources.old pyramid.now picture.old work.old)) }
{
    let outside = make_range::<M>(places, step, sources, pyramid, picture, work);
    sources.mark(step.begin as usize, step.end(), places);
    sources.close(
        places.count,
        places.residuals_at(step),
        step.number as usize,
    );
    outside
}

// The channels that no step has made, to their homes in the picture: the others stand
// there already.
fn settle(places: &Places, sources: &Sources, pyramid: &[i32], picture: &mut [i32])
    requires { SettleFits (places_in places.now) sources.now pyramid.now picture.old }
    ensures { Settled (min places.now.count max_channels) (places_in places.now) sources.now pyramid.now picture.old picture.new }
{
    for k in 0..places.len() {
        let place = places.places[k];
        sources.entries[k].settle(place.area(), place.home, pyramid, picture);
    }
}

// Accepted steps on a pyramid of the list that they leave, last first, each at the
// places that those before it leave: all channels lie in the pyramid first, one
// after the other. Tells whether one of the steps has a mark.
fn run<M: Marking>(
    list: &ChannelList,
    steps: &Steps,
    pyramid: &[i32],
    picture: &mut [i32],
    work: &mut [i32],
) -> bool
    requires { RunFits list.now steps.now pyramid.now × (length picture.old ≡ length pyramid.now) × (length work.old ≡ length pyramid.now) }
    ensures { (picture.new ≡ rebuilt (Spec.steps steps.now) (channels list.now) pyramid.now) × (result ≡ (M.marks && run_marked (Spec.steps steps.now) (channels list.now) pyramid.now)) }
{
    let count = steps.len();
    let mut places = Places::empty();
    take_steps(&mut places, list, steps, count);
    let mut sources = Sources::new();
    sources.lay(&places);
    let mut outside = false;
    for m in (0..count).rev() {
        take_steps(&mut places, list, steps, m);
        outside |= take_back::<M>(&places, steps.step(m), &mut sources, pyramid, picture, work);
    }
    settle(&places, &sources, pyramid, picture);
    outside
}

// The picture that a pyramid holds under a plan, and the run's mark.
pub fn rebuild<M: Marking>(
    form: &Form,
    pyramid: &[i32],
    picture: &mut [i32],
    work: &mut [i32],
) -> Result<bool, Refusal>
    ensures { (answer_of result ≡ Rebuild.answer_of form.now.version form.now.list form.now.steps pyramid.now picture.old work.old) × (picture.new ≡ Rebuild.picture_after form.now.version form.now.list form.now.steps pyramid.now picture.old work.old) × (work.new ≡ Rebuild.work_after form.now.version form.now.list form.now.steps pyramid.now picture.old work.old) × (mark_of result ≡ (M.marks && Rebuild.mark form.now.version form.now.list form.now.steps pyramid.now picture.old work.old)) }
{
    let steps = form.plan()?.steps;
    let total = form.list.total() as usize;
    if !((pyramid.len() == total) & ((picture.len() == total) & (work.len() == total))) {
        return Err(Refusal::Length);
    }
    let outside = run::<M>(&form.list, &steps, pyramid, picture, work);
    buffer::clear(work);
    Ok(outside)
}
