// Whole runs over a record: a picture rebuilt from its pyramid, and written as
// one, with or without the mark that says whether the run leaves the plain range. The
// record's form is judged here, then, by the run, its version, list and plan and the
// slices.
ghost use Rattle.std.specs.Prelude.{◌≡◌, eqb};
ghost use Rattle.numbers.specs.Numbers.{answer_of, number_of, refused_length};
ghost use Rattle.list.specs.Questions.{ask};
ghost use Rattle.plan.specs.Plans.{judge_plan};
ghost use Rattle.squeeze.specs.Entry as Entry;
ghost use Rattle.squeeze.specs.Marked as With;

use numbers::Refusal;
use plan::Form;
use range::{Marked, Unmarked};

// The picture of the pyramid that the record in `bytes` describes; `work` is as long as
// the picture and all zero afterwards.
pub fn squeeze_rebuild(
    bytes: &[u8],
    pyramid: &[i32],
    picture: &mut [i32],
    work: &mut [i32],
) -> Result<(), Refusal>
    ensures { (answer_of result ≡ Entry.answer bytes.now pyramid.now picture.old work.old) × (picture.new ≡ Entry.picture_of bytes.now pyramid.now picture.old work.old) × (work.new ≡ Entry.work_of bytes.now pyramid.now picture.old work.old) }
{
    let form = record::read_form(bytes)?;
    rebuild::rebuild::<Unmarked>(&form, pyramid, picture, work)?;
    Ok(())
}

// The pyramid of the picture that the record describes.
pub fn squeeze_write(
    bytes: &[u8],
    picture: &[i32],
    pyramid: &mut [i32],
    work: &mut [i32],
) -> Result<(), Refusal>
    ensures { (answer_of result ≡ Entry.answer bytes.now picture.now pyramid.old work.old) × (pyramid.new ≡ Entry.pyramid_of bytes.now picture.now pyramid.old work.old) × (work.new ≡ Entry.work_of bytes.now picture.now pyramid.old work.old) }
{
    let form = record::read_form(bytes)?;
    write::write::<Unmarked>(&form, picture, pyramid, work)?;
    Ok(())
}

// The refusal of a call that has no number for its mark, by its plan or by its slices.
fn no_mark(form: &Form) -> Refusal
    ensures { number_of result ≡ ask (eqb (judge_plan form.now.version form.now.list form.now.steps) 0) (judge_plan form.now.version form.now.list form.now.steps) refused_length }
{
    match form.plan() {
        Ok(_) => Refusal::Length,
        Err(refusal) => refusal,
    }
}

// The picture, and as the first of `mark` 1 where a sample read or made in any step lies
// outside the plain range, else 0.
pub fn squeeze_rebuild_marked(
    bytes: &[u8],
    pyramid: &[i32],
    picture: &mut [i32],
    work: &mut [i32],
    mark: &mut [u32],
) -> Result<(), Refusal>
    ensures { (answer_of result ≡ With.with_mark (Entry.answer bytes.now pyramid.now picture.old work.old) mark.old) × (picture.new ≡ With.slice_after (Entry.answer bytes.now pyramid.now picture.old work.old) mark.old (Entry.picture_of bytes.now pyramid.now picture.old work.old) picture.old) × (work.new ≡ With.slice_after (Entry.answer bytes.now pyramid.now picture.old work.old) mark.old (Entry.work_of bytes.now pyramid.now picture.old work.old) work.old) × (mark.new ≡ With.mark_after (Entry.answer bytes.now pyramid.now picture.old work.old) mark.old (With.rebuild_mark bytes.now pyramid.now)) }
{
    let form = record::read_form(bytes)?;
    if mark.len() == 0 {
        return Err(no_mark(&form));
    }
    let marked = rebuild::rebuild::<Marked>(&form, pyramid, picture, work)?;
    mark[0] = marked as u32;
    Ok(())
}

// The pyramid, and the mark that rebuilding it gives.
pub fn squeeze_write_marked(
    bytes: &[u8],
    picture: &[i32],
    pyramid: &mut [i32],
    work: &mut [i32],
    mark: &mut [u32],
) -> Result<(), Refusal>
    ensures { (answer_of result ≡ With.with_mark (Entry.answer bytes.now picture.now pyramid.old work.old) mark.old) × (pyramid.new ≡ With.slice_after (Entry.answer bytes.now picture.now pyramid.old work.old) mark.old (Entry.pyramid_of bytes.now picture.now pyramid.old work.old) pyramid.old) × (work.new ≡ With.slice_after (Entry.answer bytes.now picture.now pyramid.old work.old) mark.old (Entry.work_of bytes.now picture.now pyramid.old work.old) work.old) × (mark.new ≡ With.mark_after (Entry.answer bytes.now picture.now pyramid.old work.old) mark.old (With.write_mark bytes.now picture.now)) }
{
    let form = record::read_form(bytes)?;
    if mark.len() == 0 {
        return Err(no_mark(&form));
    }
    let marked = write::write::<Marked>(&form, picture, pyramid, work)?;
    mark[0] = marked as u32;
    Ok(())
}
