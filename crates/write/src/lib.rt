// The writer: a picture's samples squeezed into a pyramid by the steps of a plan,
// first to last. A channel is squeezed from where it stands to its home in the
// other of two slices (crate places), so that a step moves no sample of another
// channel; what the steps leave goes to its place in the pyramid at the end. Total:
// the questions to list and plan, then the one to the slices' lengths; a refused
// call leaves the slices untouched. Each function over the squeeze of a channel tells
// the mark too, whether a pair or a tail under it leaves the plain range.
#![tactic(auto)]

ghost use Rattle.std.specs.Prelude.{◌≡◌, true, ◌&&◌, ◌+◌, ◌≤◌, length, min};
ghost use Rattle.numbers.specs.Numbers as Numbers;
ghost use Rattle.channel.specs.Channel.{sides_fit};
ghost use Rattle.range.specs.Range.{mark_of};
ghost use Rattle.list.specs.Lists.{max_channels, channels, total};
ghost use Rattle.list.specs.Questions.{judge_list};
ghost use Rattle.places.specs.Places.{area, bare, place_at, places_in};
ghost use Rattle.places.specs.Laid.{part, written};
ghost use Rattle.plan.specs.Steps as Spec;
ghost use Rattle.plan.specs.Plans.{judge_steps};
ghost use Rattle.runs.specs.Parts.{joined};
ghost use Rattle.runs.specs.Runs.{squeezed};
ghost use Rattle.runs.specs.Marks.{channel_written_marked, run_written_marked};
ghost use Rattle.write.specs.Standing.{Alike, held, halves, place_marked, places_marked, Turned, Ranged, Fitting, Squeezed, Full, Reached};
ghost use Rattle.write.specs.Settled.{settling, Moved, Cleared, Starting, settled};
ghost use Rattle.write.specs.Write as Write;

use list::{ChannelList, Step};
use numbers::Refusal;
use places::{Place, Places, Slot};
use plan::{Form, Steps};
use range::Marking;

// The channel at a place of one slice as averages and residuals at the same home
// of another.
#[tactic(auto, using(crate::proofs::Putting::channel_put))]
fn squeeze_channel<M: Marking>(place: Place, horizontal: bool, from: &[i32], to: &mut [i32]) -> bool
    requires { (place.home + area place ≤ length from.now) × (place.home + area place ≤ length to.old) × (sides_fit (bare place) ≡ true) }
    ensures put { to.new ≡ written place.home (halves horizontal (bare place) (part place.home (area place) from.now)) to.old }
    ensures told { result ≡ (M.marks && channel_written_marked horizontal (bare place) (part place.home (area place) from.now)) }
{
    let channel = place.channel();
    let end = place.home + place.area();
    forward::squeeze_lines::<M>(
        horizontal,
        channel.side(!horizontal) as usize,
        channel.side(horizontal) as usize,
        &from[place.home..end],
        &mut to[place.home..end],
    )
}

// The channel at a place: one that no step has made stands in the picture, the
// others in the odd slice or in the even one, and what is made of it goes to the
// other of these two.
// Three slices, not a struct: each method would promise too that both loans stay.
fn squeeze_place<M: Marking>(
    place: Place,
    horizontal: bool,
    picture: &[i32],
    odd: &mut [i32],
    even: &mut [i32],
) -> bool
    requires { Alike picture.now odd.old even.old × (place.home + area place ≤ length picture.now) × (sides_fit (bare place) ≡ true) }
    ensures turned { Turned horizontal place picture.now odd.old even.old odd.new even.new }
    ensures told { result ≡ (M.marks && place_marked horizontal place picture.now odd.old even.old) }
{
    match place.slot {
        Slot::Unmade => squeeze_channel::<M>(place, horizontal, picture, odd),
        Slot::Odd => squeeze_channel::<M>(place, horizontal, odd, even),
        Slot::Even => squeeze_channel::<M>(place, horizontal, even, odd),
    }
}

// The channels of a step's range.
fn squeeze_step<M: Marking>(
    step: Step,
    places: &Places,
    picture: &[i32],
    odd: &mut [i32],
    even: &mut [i32],
) -> bool
    requires { Alike picture.now odd.old even.old × Ranged (length picture.now) (place_at places.now) step.begin (step.begin + step.number) × Fitting (place_at places.now) step.begin (step.begin + step.number) }
    ensures made { Squeezed step.horizontal (place_at places.now) step.begin (step.begin + step.number) picture.now odd.old even.old odd.new even.new }
    ensures told { result ≡ (M.marks && places_marked step.horizontal (place_at places.now) step.begin step.number picture.now odd.old even.old) }
{
    let horizontal = step.horizontal;
    let mut outside = false;
    for k in step.begin as usize..step.end() {
        outside |= squeeze_place::<M>(places.at(k), horizontal, picture, odd, even);
    }
    outside
}

// What the steps leave: the places, and the mark.
#[derive(Drop)]
struct Stepped {
    places: Places,
    outside: bool,
}

// Accepted steps on the picture of a list, first to last.
fn squeeze_steps<M: Marking>(
    list: &ChannelList,
    steps: &Steps,
    picture: &[i32],
    odd: &mut [i32],
    even: &mut [i32],
) -> Stepped
    requires { (judge_list list.now ≡ 0) × (judge_steps (Spec.steps steps.now) (channels list.now) ≡ 0) × (length picture.now ≡ total (channels list.now)) × Alike picture.now odd.old even.old }
    ensures reached { Reached list.now steps.now result.places.count (places_in result.places) picture.now odd.new even.new }
    ensures told { result.outside ≡ (M.marks && run_written_marked (Spec.steps steps.now) (channels list.now) picture.now) }
{
    let mut places = Places::lay(list);
    let mut outside = false;
    for k in 0..steps.len() {
        let step = steps.step(k);
        outside |= squeeze_step::<M>(step, &places, picture, odd, even);
        places.step(step);
    }
    Stepped { places, outside }
}

// The samples at a place of one slice to `start` of another.
#[tactic(auto, using(crate::proofs::Putting::copy_put))]
fn move_channel(place: Place, from: &[i32], to: &mut [i32], start: usize)
    requires { (place.home + area place ≤ length from.now) × (start + area place ≤ length to.old) }
    ensures { to.new ≡ written start (part place.home (area place) from.now) to.old }
{
    let n = place.area();
    buffer::copy(&from[place.home..place.home + n], &mut to[start..start + n]);
}

// A channel that stands in the pyramid, but not at its start, to its home in the
// work slice.
#[tactic(auto, using(crate::proofs::Moving::moved, crate::proofs::Moving::unmoved, crate::proofs::Moving::odd_tested))]
fn clear_place(place: Place, start: usize, pyramid: &[i32], work: &mut [i32])
    requires { (length work.old ≡ length pyramid.now) × (place.home + area place ≤ length pyramid.now) }
    ensures { Moved start place pyramid.now work.old work.new }
{
    if (place.slot == Slot::Odd) & (place.home != start) {
        move_channel(place, pyramid, work, place.home);
    }
}

// Every channel, so that nothing is lost when the pyramid is written. The starts lie in
// an array of their own: two loops read them, and either would have to count them anew,
// since each is the sum of all areas before it.
fn clear_way(places: &Places, starts: &[usize; 256], pyramid: &[i32], work: &mut [i32])
    requires { (length work.old ≡ length pyramid.now) × Ranged (length pyramid.now) (place_at places.now) 0 (min places.now.count max_channels) }
    ensures { Cleared (min places.now.count max_channels) (place_at places.now) starts.now pyramid.now work.old work.new }
{
    for k in 0..places.len() {
        clear_place(places.at(k), starts[k], pyramid, work);
    }
}

// A channel to its start in the pyramid: from the picture if no step has made it,
// else from the work slice, unless it stands there already.
#[tactic(auto, using(crate::proofs::Settling::from_picture, crate::proofs::Settling::from_work, crate::proofs::Settling::from_even, crate::proofs::Settling::in_pyramid, crate::proofs::Settling::part_again))]
fn settle_place(place: Place, start: usize, picture: &[i32], work: &[i32], pyramid: &mut [i32])
    requires { (place.home + area place ≤ length picture.now) × (place.home + area place ≤ length work.now) × (start + area place ≤ length pyramid.old) }
    ensures { pyramid.new ≡ written start (settling picture.now pyramid.old work.now start place) pyramid.old }
{
    match place.slot {
        Slot::Unmade => move_channel(place, picture, pyramid, start),
        Slot::Odd if place.home == start => {}
        Slot::Odd => move_channel(place, work, pyramid, start),
        Slot::Even => move_channel(place, work, pyramid, start),
    }
}

// Every channel, first to last.
fn settle(
    places: &Places,
    starts: &[usize; 256],
    picture: &[i32],
    work: &[i32],
    pyramid: &mut [i32],
)
    requires { Alike picture.now pyramid.old work.now × Starting (length picture.now) (min places.now.count max_channels) (place_at places.now) starts.now }
    ensures { pyramid.new ≡ settled picture.now pyramid.old work.now (place_at places.now) starts.now (min places.now.count max_channels) }
{
    for k in 0..places.len() {
        settle_place(places.at(k), starts[k], picture, work, pyramid);
    }
}

// The channels that the steps leave, from where they stand to the pyramid, one
// after the other.
fn finish(places: &Places, picture: &[i32], pyramid: &mut [i32], work: &mut [i32])
    requires { Alike picture.now pyramid.old work.old × Full places.now.count (places_in places.now) (length picture.now) }
    ensures { pyramid.new ≡ joined (held picture.now pyramid.old work.old (places_in places.now)) }
{
    let starts = places.starts();
    clear_way(places, &starts, pyramid, work);
    settle(places, &starts, picture, work, pyramid);
}

// The steps on the picture of a list, the pyramid as the odd slice and the work
// slice as the even one.
fn run<M: Marking>(
    list: &ChannelList,
    steps: &Steps,
    picture: &[i32],
    pyramid: &mut [i32],
    work: &mut [i32],
) -> bool
    requires { (judge_list list.now ≡ 0) × (judge_steps (Spec.steps steps.now) (channels list.now) ≡ 0) × (length picture.now ≡ total (channels list.now)) × Alike picture.now pyramid.old work.old }
    ensures made { pyramid.new ≡ squeezed (Spec.steps steps.now) (channels list.now) picture.now }
    ensures told { result ≡ (M.marks && run_written_marked (Spec.steps steps.now) (channels list.now) picture.now) }
{
    let stepped = squeeze_steps::<M>(list, steps, picture, pyramid, work);
    finish(&stepped.places, picture, pyramid, work);
    stepped.outside
}

// The pyramid of a picture: all slices have the samples of the list, and the
// work slice is cleared at the end; and whether a pair or a tail under a step leaves
// the plain range.
pub fn write<M: Marking>(
    form: &Form,
    picture: &[i32],
    pyramid: &mut [i32],
    work: &mut [i32],
) -> Result<bool, Refusal>
    ensures { (Numbers.answer_of result ≡ Write.answer form.now.version form.now.list form.now.steps picture.now pyramid.old work.old) × (pyramid.new ≡ Write.written form.now.version form.now.list form.now.steps picture.now pyramid.old work.old) × (work.new ≡ Write.cleared form.now.version form.now.list form.now.steps picture.now pyramid.old work.old) × (mark_of result ≡ (M.marks && Write.mark form.now.version form.now.list form.now.steps picture.now pyramid.old work.old)) }
{
    let steps = form.plan()?.steps;
    let total = form.list.total() as usize;
    if !((picture.len() == total) & ((pyramid.len() == total) & (work.len() == total))) {
        return Err(Refusal::Length);
    }
    let outside = run::<M>(&form.list, &steps, picture, pyramid, work);
    buffer::clear(work);
    Ok(outside)
}
