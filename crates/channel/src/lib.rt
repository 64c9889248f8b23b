// A channel of a picture: its sides, and its two shifts, both 255 for a meta
// channel. Total on every value of the fields.
#![tactic(auto)]

ghost use Rattle.std.specs.Prelude.{◌≡◌, cond};
ghost use Rattle.channel.specs.Channel as Spec;

use numbers::MAX_SIDE;

#[derive(Clone, Copy, PartialEq, Eq, Debug, Default)]
pub struct Channel {
    pub width: u32,
    pub height: u32,
    pub hshift: u8,
    pub vshift: u8,
}

impl Channel {
    pub const META: u8 = 255;

    pub const MAX_SHIFT: u8 = 30;

    #[tactic(auto, unfolding(crate::specs::Channel::is_meta))]
    pub fn is_meta(self) -> bool
        ensures { result ≡ Spec.is_meta self }
    {
        (self.hshift == Channel::META) & (self.vshift == Channel::META)
    }

    // Shifts of 0 to 30, or both 255.
    #[tactic(auto, unfolding(crate::specs::Channel::shifts_allowed))]
    pub fn has_shifts_allowed(self) -> bool
        ensures { result ≡ Spec.shifts_allowed self }
    {
        self.is_meta() | ((self.hshift <= Channel::MAX_SHIFT) & (self.vshift <= Channel::MAX_SHIFT))
    }

    // The sides, which may hold more than the limit.
    #[tactic(auto, unfolding(crate::specs::Channel::sides_fit))]
    fn has_sides_allowed(self) -> bool
        ensures { result ≡ Spec.sides_fit self }
    {
        (self.width as usize <= MAX_SIDE) & (self.height as usize <= MAX_SIDE)
    }

    // Shifts and sides.
    #[tactic(auto, unfolding(crate::specs::Channel::is_allowed))]
    pub fn is_allowed(self) -> bool
        ensures { result ≡ Spec.is_allowed self }
    {
        self.has_shifts_allowed() & self.has_sides_allowed()
    }

    // The side that a step halves: the width of a horizontal one, else the height.
    pub fn side(self, horizontal: bool) -> u32
        ensures { result ≡ cond horizontal self.width self.height }
    {
        if horizontal { self.width } else { self.height }
    }

    #[tactic(auto, unfolding(crate::specs::Channel::samples))]
    pub fn samples(self) -> u64
        ensures { result ≡ Spec.samples self }
    {
        (self.width as u64) * (self.height as u64)
    }
}
