// Where the samples of a list's channels lie while the steps of a plan are
// taken (specs/Places.antt): each channel has its place, that is its sides, its
// home and its slot. A step divides homes between averages and residuals and
// moves no sample. Total: any count and any entry may come in.
#![tactic(auto)]

ghost use Rattle.std.specs.Prelude.{◌≡◌, [], ◌+◌, ◌*◌, ◌≤◌, length, min, drop};
ghost use Rattle.list.specs.Tables.{padded};
ghost use Rattle.list.specs.Lists.{max_channels, channels};
ghost use Rattle.places.specs.Places as Spec;
ghost use Rattle.places.specs.Moves as Moves;

use channel::Channel;
use list::{ChannelList, Step, halved};
use numbers::MAX_SAMPLES;

// Which slice a channel stands in: what no step has made, what an odd number of
// steps have, or what an even number have.
#[derive(Clone, Copy, PartialEq, Eq, Debug, Default)]
pub enum Slot {
    #[default]
    Unmade,
    Odd,
    Even,
}

impl Slot {
    // The slot that a number stands for, whatever it is: 0 what no step has made, 1 an odd
    // number of steps, any other an even number. A step turns it as it turns the number.
    #[tactic(auto, unfolding(crate::specs::Places::turned))]
    pub fn of(number: u8) -> Self
        ensures value { result ≡ Spec.slot_of number }
        ensures turned { Spec.turned result ≡ Spec.slot_of (Spec.turned_number number) }
    {
        match number {
            0 => Slot::Unmade,
            1 => Slot::Odd,
            _ => Slot::Even,
        }
    }

    // The slot of what a step makes of a channel.
    #[tactic(auto, unfolding(crate::specs::Places::turned))]
    pub fn turned(self) -> Self
        ensures { result ≡ Spec.turned self }
    {
        match self {
            Slot::Unmade => Slot::Odd,
            Slot::Odd => Slot::Even,
            Slot::Even => Slot::Odd,
        }
    }
}

// A channel's sides, the start of its home, and its slot; by default no channel's.
#[derive(Clone, Copy, PartialEq, Eq, Debug, Default)]
pub struct Place {
    pub width: u32,
    pub height: u32,
    pub home: usize,
    pub slot: Slot,
}

// `n` behind a home, inside the longest slice.
#[tactic(auto, unfolding(crate::specs::Places::behind))]
pub fn behind(home: usize, n: usize) -> usize
    ensures { result ≡ Spec.behind home n }
{
    home.saturating_add(n).min(MAX_SAMPLES)
}

impl Place {
    // The samples of its channel, as a length: not by `Channel::samples`, which counts
    // what no slice may hold.
    pub fn area(self) -> usize
        ensures { result ≡ Spec.area self }
    {
        self.width as usize * self.height as usize
    }

    // Its sides as a channel, which are all that a squeeze knows of one: no `From`, as
    // home and slot are left out.
    pub fn channel(self) -> Channel
        ensures { result ≡ Spec.bare self }
    {
        Channel {
            width: self.width,
            height: self.height,
            hshift: 0,
            vshift: 0,
        }
    }

    // The place of its average, which keeps the start of the home.
    pub fn average(self, horizontal: bool) -> Self
        ensures { result ≡ Spec.average_place horizontal self }
    {
        let mut average = self;
        average.slot = self.slot.turned();
        if horizontal {
            average.width = halved(self.width);
        } else {
            average.height = halved(self.height);
        }
        average
    }

    // The place of its residual, which has the rest of the home.
    pub fn residual(self, horizontal: bool) -> Self
        ensures { result ≡ Spec.residual_place horizontal self }
    {
        let average = self.average(horizontal);
        let mut residual = self;
        residual.slot = average.slot;
        residual.home = behind(self.home, average.area());
        if horizontal {
            residual.width = self.width - average.width;
        } else {
            residual.height = self.height - average.height;
        }
        residual
    }
}

// The places of a list's channels: the first `count` of the array. No `ArrayVec`: any
// count may come in, and `step` and `reset` say of the array past it that it stays.
#[derive(Clone, Copy)]
pub struct Places {
    pub count: usize,
    pub places: [Place; 256],
}

// Splits the channels of a range, their residuals from `at` on.
fn split(places: &mut [Place], step: Step, at: usize)
    requires { (length places.old ≡ max_channels) × (step.begin + step.number ≤ at) × (at + step.number ≤ max_channels) }
    ensures { Moves.Split step.horizontal step.begin at step.number (Spec.place_of places.old) (Spec.place_of places.new) }
{
    let begin = step.begin as usize;
    let number = step.number as usize;
    for i in 0..number {
        let place = places[begin + i];
        places[begin + i] = place.average(step.horizontal);
        places[at + i] = place.residual(step.horizontal);
    }
}

impl Places {
    // No channel's places.
    #[tactic(auto, unfolding(crate::specs::Places::places_in))]
    pub fn empty() -> Self
        ensures { Spec.places_in result ≡ [] }
    {
        Places {
            count: 0,
            places: [Place::default(); 256],
        }
    }

    // The places of a list's channels, one after the other, before any step.
    pub fn lay(list: &ChannelList) -> Self
        ensures { Spec.places_in result ≡ Spec.places_from 0 (channels list.now) }
    {
        let mut places = Places::empty();
        places.reset(list);
        places
    }

    // The same in place of these, and what stands past them stays: no array is made or
    // copied. The sides are read from the list's arrays, which is no longer than by
    // `channel(k)`. The loop of `starts` again, which reads the sides of places that are made
    // only here.
    pub fn reset(&mut self, list: &ChannelList)
        ensures placed { Spec.places_in self.new ≡ Spec.places_from 0 (channels list.now) }
        ensures kept { drop self.new.count self.new.places ≡ drop self.new.count self.old.places }
    {
        let count = list.len();
        let mut at = 0;
        for k in 0..count {
            let place = Place {
                width: list.widths[k],
                height: list.heights[k],
                home: at,
                slot: Slot::Unmade,
            };
            self.places[k] = place;
            at = behind(at, place.area());
        }
        self.count = count;
    }

    // Entry `k` of the array, no channel's place past it.
    pub fn at(&self, k: usize) -> Place
        ensures { result ≡ Spec.place_at self.now k }
    {
        self.places.get(k).copied().unwrap_or_default()
    }

    // How many places are meant.
    pub fn len(&self) -> usize
        ensures { result ≡ min self.now.count max_channels }
    {
        self.count.min(ChannelList::MAX_CHANNELS)
    }

    // Where each channel would start if they lay one after the other.
    pub fn starts(&self) -> [usize; 256]
        ensures { result ≡ padded max_channels (Spec.starts_from 0 (Spec.areas_in self.now)) }
    {
        let count = self.len();
        let mut starts = [0; 256];
        let mut at = 0;
        for k in 0..count {
            starts[k] = at;
            at = behind(at, self.places[k].area());
        }
        starts
    }

    // Where the residuals of a step start.
    pub fn residuals_at(&self, step: Step) -> usize
        ensures { result ≡ Spec.residuals_at self.now.count step }
    {
        step.residuals_at(self.count)
    }

    // Whether a step's range lies inside and there is room for its residuals.
    #[tactic(auto, unfolding(crate::specs::Places::step_fits))]
    fn fits(&self, step: Step) -> bool
        ensures { result ≡ Spec.step_fits self.now.count step }
    {
        let number = step.number as usize;
        let inside = step.end() <= self.count;
        inside & (self.count.saturating_add(number) <= ChannelList::MAX_CHANNELS)
    }

    // The places after a step; where it does not fit nothing changes.
    #[tactic(auto, using(crate::proofs::Steps::residuals_inside, crate::proofs::Placed::fits_facts))]
    pub fn step(&mut self, step: Step)
        ensures counted { self.new.count ≡ Spec.count_after self.old.count step }
        ensures placed { Spec.places_in self.new ≡ Spec.places_after step self.old }
        ensures kept { drop self.new.count self.new.places ≡ drop self.new.count self.old.places }
    {
        if !self.fits(step) {
            return;
        }
        let number = step.number as usize;
        let at = self.residuals_at(step);
        self.places.copy_within(at..self.count, at + number);
        split(&mut self.places, step, at);
        self.count += number;
    }
}
