// Channel lists and their steps: a record's listing and its layout as numbers,
// and a record from numbers.
ghost use Rattle.std.specs.Prelude.{◌≡◌};
ghost use Rattle.numbers.specs.Numbers.{answer_of};
ghost use Rattle.layout.specs.Layout as Layout;
ghost use Rattle.listing.specs.Listing as Listing;
ghost use Rattle.numbered.specs.Numbered as Numbered;

use numbers::Refusal;

// The listing of the record as text, over the front of `text`, and its length as
// the first of `size`.
pub fn squeeze_listing(bytes: &[u8], text: &mut [u8], size: &mut [u32]) -> Result<(), Refusal>
    ensures { (answer_of result ≡ Listing.list_answer bytes.now text.old size.old) × (text.new ≡ Listing.text_after bytes.now text.old size.old) × (size.new ≡ Listing.size_after bytes.now text.old size.old) }
{
    listing::list_record(bytes, text, size)
}

// The layout of the record, over the fronts of the slices: version, how many steps
// and channels, and how many of these are coarse; the steps that are meant; the
// rewritten list; and for each of its channels the one of the record's that it
// was made from.
pub fn squeeze_layout(
    bytes: &[u8],
    counts: &mut [u32],
    steps: &mut [u32],
    channels: &mut [u32],
    origins: &mut [u32],
) -> Result<(), Refusal>
    ensures { (answer_of result ≡ Layout.answer bytes.now (Layout.rows counts.old steps.old channels.old origins.old)) × (Layout.rows counts.new steps.new channels.new origins.new ≡ Layout.after bytes.now (Layout.rows counts.old steps.old channels.old origins.old)) }
{
    layout::layout_of(bytes, counts, steps, channels, origins)
}

// The record of a plan version, a list and its steps given as numbers, over the
// front of `bytes`, and its length as the first of `size`.
pub fn squeeze_record(
    version: u32,
    channels: &[u32],
    steps: &[u32],
    bytes: &mut [u8],
    size: &mut [u32],
) -> Result<(), Refusal>
    ensures { (answer_of result ≡ Numbered.answer version channels.now steps.now bytes.old size.old) × (bytes.new ≡ Numbered.record_after version channels.now steps.now bytes.old size.old) × (size.new ≡ Numbered.length_after version channels.now steps.now bytes.old size.old) }
{
    numbered::record_of_numbers(version, channels, steps, bytes, size)
}
