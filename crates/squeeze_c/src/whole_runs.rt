// Whole runs over a record: a picture rebuilt from its pyramid, and written as
// one, with or without the mark.
ghost use Rattle.std.specs.Prelude.{◌≡◌};
ghost use Rattle.squeeze.specs.Entry as Entry;
ghost use Rattle.squeeze.specs.Marked as With;

use numbers::answer_of;

#[unsafe(no_mangle)]
pub extern "C" fn squeeze_rebuild(
    bytes: &[u8],
    pyramid: &[i32],
    picture: &mut [i32],
    work: &mut [i32],
) -> u32
    ensures { (result ≡ Entry.answer bytes.now pyramid.now picture.old work.old) × (picture.new ≡ Entry.picture_of bytes.now pyramid.now picture.old work.old) × (work.new ≡ Entry.work_of bytes.now pyramid.now picture.old work.old) }
{
    answer_of(squeeze::whole_runs::squeeze_rebuild(bytes, pyramid, picture, work))
}

#[unsafe(no_mangle)]
pub extern "C" fn squeeze_write(
    bytes: &[u8],
    picture: &[i32],
    pyramid: &mut [i32],
    work: &mut [i32],
) -> u32
    ensures { (result ≡ Entry.answer bytes.now picture.now pyramid.old work.old) × (pyramid.new ≡ Entry.pyramid_of bytes.now picture.now pyramid.old work.old) × (work.new ≡ Entry.work_of bytes.now picture.now pyramid.old work.old) }
{
    answer_of(squeeze::whole_runs::squeeze_write(bytes, picture, pyramid, work))
}

#[unsafe(no_mangle)]
pub extern "C" fn squeeze_rebuild_marked(
    bytes: &[u8],
    pyramid: &[i32],
    picture: &mut [i32],
    work: &mut [i32],
    mark: &mut [u32],
) -> u32
    ensures { (result ≡ With.with_mark (Entry.answer bytes.now pyramid.now picture.old work.old) mark.old) × (picture.new ≡ With.slice_after (Entry.answer bytes.now pyramid.now picture.old work.old) mark.old (Entry.picture_of bytes.now pyramid.now picture.old work.old) picture.old) × (work.new ≡ With.slice_after (Entry.answer bytes.now pyramid.now picture.old work.old) mark.old (Entry.work_of bytes.now pyramid.now picture.old work.old) work.old) × (mark.new ≡ With.mark_after (Entry.answer bytes.now pyramid.now picture.old work.old) mark.old (With.rebuild_mark bytes.now pyramid.now)) }
{
    answer_of(squeeze::whole_runs::squeeze_rebuild_marked(bytes, pyramid, picture, work, mark))
}

#[unsafe(no_mangle)]
pub extern "C" fn squeeze_write_marked(
    bytes: &[u8],
    picture: &[i32],
    pyramid: &mut [i32],
    work: &mut [i32],
    mark: &mut [u32],
) -> u32
    ensures { (result ≡ With.with_mark (Entry.answer bytes.now picture.now pyramid.old work.old) mark.old) × (pyramid.new ≡ With.slice_after (Entry.answer bytes.now picture.now pyramid.old work.old) mark.old (Entry.pyramid_of bytes.now picture.now pyramid.old work.old) pyramid.old) × (work.new ≡ With.slice_after (Entry.answer bytes.now picture.now pyramid.old work.old) mark.old (Entry.work_of bytes.now picture.now pyramid.old work.old) work.old) × (mark.new ≡ With.mark_after (Entry.answer bytes.now picture.now pyramid.old work.old) mark.old (With.write_mark bytes.now picture.now)) }
{
    answer_of(squeeze::whole_runs::squeeze_write_marked(bytes, picture, pyramid, work, mark))
}
