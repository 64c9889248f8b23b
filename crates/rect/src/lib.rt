// The rectangle of a channel at a grid position (the Rust's `get_grid_rect` and
// `grid_dim`). `get_grid_rect` is total: the channel's form is judged first, then the
// kinds and the group dimension, and nothing else; where the Rust panics the answer
// is a refusal. Its private helpers work on what those questions let through.
#![tactic(auto)]

ghost use Rattle.std.specs.Prelude.{◌≡◌, true, ◌-◌, ◌≤◌, ◌<◌, min};
ghost use Rattle.rect.specs.Rect as Spec;
ghost use Rattle.rect.specs.Parts as Parts;
ghost use Rattle.channel.specs.Channel.{is_allowed, max_shift};

use channel::Channel;
use numbers::Refusal;

// Groups along one side of an LF group.
const LF_GROUPS: u32 = 8;

// Where a tile starts in what is stored, and its sides; all 0 for a tile without
// samples.
#[derive(Clone, Copy, PartialEq, Eq, Debug, Default)]
pub struct Rect {
    pub x: u32,
    pub y: u32,
    pub width: u32,
    pub height: u32,
}

// One direction of a tile that is not empty: where it starts in what is stored, and
// its size.
#[derive(Clone, Copy)]
struct Span {
    start: u32,
    size: u32,
}

// Where a tile starts in what is stored: at 0, at its start in the channel
// itself, or at that start's place within the LF tile. A closure in its place would
// be no plainer: `span_of` and `tile` would state what it needs (an LF tile above 0)
// and what it gives.
#[derive(Clone, Copy)]
enum StoredStart {
    Zero,
    Itself,
    WithinLf,
}

impl StoredStart {
    fn start(self, start: u32, lf: u32) -> u32
        requires { 0 < lf }
        ensures { result ≡ Parts.rule_of self start lf }
    {
        match self {
            StoredStart::Zero => 0,
            StoredStart::Itself => start,
            StoredStart::WithinLf => start % lf,
        }
    }
}

#[tactic(auto, unfolding(crate::specs::Rect::whole))]
fn whole(channel: Channel) -> Rect
    ensures { Spec.told result ≡ Spec.whole channel }
{
    Rect {
        x: 0,
        y: 0,
        width: channel.width,
        height: channel.height,
    }
}

#[tactic(auto, unfolding(crate::specs::Rect::group_allowed))]
fn is_group_allowed(group: u32) -> bool
    ensures { result ≡ Spec.group_allowed group }
{
    (group == 128) | (group == 256) | (group == 512) | (group == 1024)
}

fn tile_side(dimension: u32, shift: u8) -> u32
    requires { shift ≤ max_shift }
    ensures { result ≡ Spec.tile_side dimension shift }
{
    dimension >> (shift as u32)
}

// What a channel's side has left from `start` on, at most the tile side.
fn size_from(side: u32, start: u32, tile: u32) -> u32
    ensures { result ≡ min (side - start) tile }
{
    side.saturating_sub(start).min(tile)
}

// One direction of a tile; none where it is empty. Only one that is not empty has an
// LF tile above 0, and so a start.
fn span_of(
    rule: StoredStart,
    dimension: u32,
    group: u32,
    side: u32,
    shift: u8,
    position: u16,
) -> Option<Span>
    requires { Parts.Dimensions dimension group × (shift ≤ max_shift) }
    ensures { result ≡ Parts.span_of (Parts.rule_of rule) dimension group side shift position }
{
    let tile = tile_side(dimension, shift);
    let start = (position as u32) * tile;
    let size = size_from(side, start, tile);
    if size == 0 {
        return None;
    }
    let lf = tile_side(LF_GROUPS * group, shift);
    Some(Span {
        start: rule.start(start, lf),
        size,
    })
}

// A channel whose form passed question 4, with a group dimension that is allowed and a
// grid position.
#[derive(Clone, Copy)]
struct Cell {
    channel: Channel,
    group: u32,
    gx: u16,
    gy: u16,
    ghost allowed: { is_allowed channel ≡ true },
    ghost small: { group ≤ Parts.max_group },
}

impl Cell {
    fn tile(self, rule: StoredStart, dimension: u32) -> Result<Rect, Refusal>
        requires { dimension ≤ Spec.lf_dimension self.group }
        ensures { Spec.answered result ≡ Spec.tile_unless_meta (Parts.rule_of rule) dimension self.channel self.group self.gx self.gy }
    {
        let c = self.channel;
        if c.is_meta() {
            return Err(Refusal::Tile);
        }
        let across = span_of(rule, dimension, self.group, c.width, c.hshift, self.gx);
        let down = span_of(rule, dimension, self.group, c.height, c.vshift, self.gy);
        match (across, down) {
            (Some(across), Some(down)) => Ok(Rect {
                x: across.start,
                y: down.start,
                width: across.size,
                height: down.size,
            }),
            _ => Ok(Rect::default()),
        }
    }

    // Kinds are None (0), LF (1) and HF (2); the first of a pair is the output kind, the
    // second the stored kind. A rule of the project has both as numbers, with one match
    // over the combinations: any byte may come, and enums of three would ask more of
    // callers.
    #[tactic(auto, unfolding(crate::specs::Rect::by_kinds))]
    fn rect_by_kinds(self, output: u8, stored: u8) -> Result<Rect, Refusal>
        ensures { Spec.answered result ≡ Spec.by_kinds output stored self.channel self.group self.gx self.gy }
    {
        let lf = LF_GROUPS * self.group;
        match (output, stored) {
            (0, 0) => Ok(whole(self.channel)),
            (1, 0) => self.tile(StoredStart::Itself, lf),
            (1, 1) => self.tile(StoredStart::Zero, lf),
            (2, 0) => self.tile(StoredStart::Itself, self.group),
            (2, 1) => self.tile(StoredStart::WithinLf, self.group),
            (2, 2) => self.tile(StoredStart::Zero, self.group),
            _ => Err(Refusal::Tile),
        }
    }
}

// Judges the channel's form, then the group dimension, then the kinds.
#[tactic(auto, using(crate::proofs::Allowed::group_small), unfolding(crate::specs::Rect::rect_of))]
pub fn get_grid_rect(
    channel: Channel,
    output: u8,
    stored: u8,
    group: u32,
    gx: u16,
    gy: u16,
) -> Result<Rect, Refusal>
    ensures { Spec.answered result ≡ Spec.rect_of channel output stored group gx gy }
{
    if !channel.is_allowed() {
        return Err(Refusal::Form);
    }
    if !is_group_allowed(group) {
        return Err(Refusal::Tile);
    }
    let cell = Cell {
        channel,
        group,
        gx,
        gy,
    };
    cell.rect_by_kinds(output, stored)
}
