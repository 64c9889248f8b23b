// What more than one crate uses: two limits, and the refusals, each with its number.
// What a call answers is 0 or the number of its refusal.
#![tactic(auto)]

ghost use Rattle.std.specs.Prelude.{◌≡◌};
ghost use Rattle.numbers.specs.Numbers as Numbers;

// The longest side of a channel, and of a rectangle of a tile call.
pub const MAX_SIDE: usize = 1_048_575;

// The samples of a list, and of each rectangle of a tile call, at most.
pub const MAX_SAMPLES: usize = 16_777_216;

// The first question that a call answers with "no", in the questions' order.
#[derive(Clone, Copy, PartialEq, Eq, Debug)]
pub enum Refusal {
    // A field's head or its stated length lies past the bytes.
    Outside = 1,
    // The tag is unknown, the length is not its own, or a channel follows a step.
    Field = 2,
    // No channel, too many channels or too many steps.
    Count = 3,
    // A shift, a side, a flag or a version that is not allowed, or a meta channel
    // after another.
    Form = 4,
    // Too many samples.
    Samples = 5,
    // A default plan of meta channels alone.
    Default = 11,
    // A step's range is empty or ends past the list.
    Range = 6,
    // Meta channels and others in one range.
    Kinds = 7,
    // Meta channels, and the step is not in place.
    Place = 8,
    // A channel of the range without a sample.
    Empty = 9,
    // Too many channels after the step, or a shift above the limit.
    Room = 10,
    // The sizes of a tile call do not fit together.
    Sizes = 13,
    // A rectangle of that kind or group dimension is not told.
    Tile = 14,
    // A slice has not the length that it needs.
    Length = 12,
}

impl Refusal {
    pub fn number(self) -> u32
        ensures { result ≡ Numbers.number_of self }
    {
        self as u32
    }
}

// 0, or the refusal's number: what a C function answers.
pub fn answer_of(outcome: Result<(), Refusal>) -> u32
    ensures { result ≡ Numbers.answer_of outcome }
{
    match outcome {
        Ok(()) => 0,
        Err(refusal) => refusal.number(),
    }
}
