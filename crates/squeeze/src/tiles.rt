// Tiles: one tile of an inverse squeeze, and the rectangle of a channel at a grid
// position, over numbers as C has them: any number may come, and a bool or an enum in
// its place would ask more of callers.
ghost use Rattle.std.specs.Prelude.{◌≡◌};
ghost use Rattle.numbers.specs.Numbers.{answer_of};
ghost use Rattle.tile.specs.Call as Call;
ghost use Rattle.squeeze.specs.GridRect as GridRect;
ghost use Rattle.squeeze.specs.Marked as With;

use channel::Channel;
use numbers::Refusal;
use range::{Marked, Unmarked};
use tile::Sides;

// x, y, width and height.
const RECT_NUMBERS: usize = 4;

// One tile of an inverse squeeze, horizontal unless the first number is 0, with
// the lines of its neighbours or none.
pub fn squeeze_tile<'a>(
    horizontal: u32,
    aw: usize,
    ah: usize,
    rw: usize,
    rh: usize,
    ow: usize,
    oh: usize,
    avg: &'a [i32],
    res: &[i32],
    next: &'a [i32],
    prev: &'a [i32],
    out: &mut [i32],
) -> Result<(), Refusal>
    ensures { (answer_of result ≡ Call.answer (Call.call horizontal aw ah rw rh ow oh avg.now res.now next.now prev.now out.old)) × (out.new ≡ Call.after (Call.call horizontal aw ah rw rh ow oh avg.now res.now next.now prev.now out.old)) }
{
    let a = Sides {
        width: aw,
        height: ah,
    };
    let r = Sides {
        width: rw,
        height: rh,
    };
    let o = Sides {
        width: ow,
        height: oh,
    };
    tile::squeeze_tile::<Unmarked>(horizontal != 0, a, r, o, avg, res, next, prev, out)?;
    Ok(())
}

// The same, and as the first of `mark` 1 where a pair or a copied average of the tile
// leaves the plain range, else 0.
pub fn squeeze_tile_marked<'a>(
    horizontal: u32,
    aw: usize,
    ah: usize,
    rw: usize,
    rh: usize,
    ow: usize,
    oh: usize,
    avg: &'a [i32],
    res: &[i32],
    next: &'a [i32],
    prev: &'a [i32],
    out: &mut [i32],
    mark: &mut [u32],
) -> Result<(), Refusal>
    ensures { (answer_of result ≡ With.with_mark (Call.answer (Call.call horizontal aw ah rw rh ow oh avg.now res.now next.now prev.now out.old)) mark.old) × (out.new ≡ With.slice_after (Call.answer (Call.call horizontal aw ah rw rh ow oh avg.now res.now next.now prev.now out.old)) mark.old (Call.after (Call.call horizontal aw ah rw rh ow oh avg.now res.now next.now prev.now out.old)) out.old) × (mark.new ≡ With.mark_after (Call.answer (Call.call horizontal aw ah rw rh ow oh avg.now res.now next.now prev.now out.old)) mark.old (Call.call_mark (Call.call horizontal aw ah rw rh ow oh avg.now res.now next.now prev.now out.old))) }
{
    let row = horizontal != 0;
    let a = Sides {
        width: aw,
        height: ah,
    };
    let r = Sides {
        width: rw,
        height: rh,
    };
    let o = Sides {
        width: ow,
        height: oh,
    };
    if mark.len() == 0 {
        tile::judge_tile(row, a, r, o, avg, res, next, prev, out)?;
        return Err(Refusal::Length);
    }
    let marked = tile::squeeze_tile::<Marked>(row, a, r, o, avg, res, next, prev, out)?;
    mark[0] = marked as u32;
    Ok(())
}

// The rectangle of a channel at a grid position: x, y, width and height.
pub fn squeeze_grid_rect(
    width: u32,
    height: u32,
    hshift: u8,
    vshift: u8,
    output: u8,
    stored: u8,
    group: u32,
    gx: u16,
    gy: u16,
    numbers: &mut [u32],
) -> Result<(), Refusal>
    ensures { (answer_of result ≡ GridRect.answer (GridRect.channel width height hshift vshift) output stored group gx gy numbers.old) × (numbers.new ≡ GridRect.numbers_after (GridRect.channel width height hshift vshift) output stored group gx gy numbers.old) }
{
    let channel = Channel {
        width,
        height,
        hshift,
        vshift,
    };
    let found = rect::get_grid_rect(channel, output, stored, group, gx, gy)?;
    if numbers.len() != RECT_NUMBERS {
        return Err(Refusal::Length);
    }
    // In the C function's order, which `rect` does not know.
    numbers.copy_from_slice(&[found.x, found.y, found.width, found.height]);
    Ok(())
}
