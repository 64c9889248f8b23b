// Tiles: one tile of an inverse squeeze, and the rectangle of a channel at a grid
// position. Numbers and slices stand apart, as C has them.
ghost use Rattle.std.specs.Prelude.{◌≡◌};
ghost use Rattle.tile.specs.Call as Call;
ghost use Rattle.squeeze.specs.GridRect as GridRect;
ghost use Rattle.squeeze.specs.Marked as With;

use numbers::answer_of;

#[unsafe(no_mangle)]
pub extern "C" fn squeeze_tile<'a>(
    horizontal: u32,
    aw: usize,
    ah: usize,
    rw: usize,
    rh: usize,
    ow: usize,
    oh: usize,
    avg: &'a [i32],
    res: &[i32],
    next: &'a [i32],
    prev: &'a [i32],
    out: &mut [i32],
) -> u32
    ensures { (result ≡ Call.answer (Call.call horizontal aw ah rw rh ow oh avg.now res.now next.now prev.now out.old)) × (out.new ≡ Call.after (Call.call horizontal aw ah rw rh ow oh avg.now res.now next.now prev.now out.old)) }
{
    answer_of(squeeze::tiles::squeeze_tile(
        horizontal, aw, ah, rw, rh, ow, oh, avg, res, next, prev, out,
    ))
}

#[unsafe(no_mangle)]
pub extern "C" fn squeeze_tile_marked<'a>(
    horizontal: u32,
    aw: usize,
    ah: usize,
    rw: usize,
    rh: usize,
    ow: usize,
    oh: usize,
    avg: &'a [i32],
    res: &[i32],
    next: &'a [i32],
    prev: &'a [i32],
    out: &mut [i32],
    mark: &mut [u32],
) -> u32
    ensures { (result ≡ With.with_mark (Call.answer (Call.call horizontal aw ah rw rh ow oh avg.now res.now next.now prev.now out.old)) mark.old) × (out.new ≡ With.slice_after (Call.answer (Call.call horizontal aw ah rw rh ow oh avg.now res.now next.now prev.now out.old)) mark.old (Call.after (Call.call horizontal aw ah rw rh ow oh avg.now res.now next.now prev.now out.old)) out.old) × (mark.new ≡ With.mark_after (Call.answer (Call.call horizontal aw ah rw rh ow oh avg.now res.now next.now prev.now out.old)) mark.old (Call.call_mark (Call.call horizontal aw ah rw rh ow oh avg.now res.now next.now prev.now out.old))) }
{
    answer_of(squeeze::tiles::squeeze_tile_marked(
        horizontal, aw, ah, rw, rh, ow, oh, avg, res, next, prev, out, mark,
    ))
}

#[unsafe(no_mangle)]
pub extern "C" fn squeeze_grid_rect(
    width: u32,
    height: u32,
    hshift: u8,
    vshift: u8,
    output: u8,
    stored: u8,
    group: u32,
    gx: u16,
    gy: u16,
    numbers: &mut [u32],
) -> u32
    ensures { (result ≡ GridRect.answer (GridRect.channel width height hshift vshift) output stored group gx gy numbers.old) × (numbers.new ≡ GridRect.numbers_after (GridRect.channel width height hshift vshift) output stored group gx gy numbers.old) }
{
    answer_of(squeeze::tiles::squeeze_grid_rect(
        width, height, hshift, vshift, output, stored, group, gx, gy, numbers,
    ))
}
