// Channel lists and their steps: a record's listing and its layout as numbers,
// and a record from numbers.
ghost use Rattle.std.specs.Prelude.{◌≡◌};
ghost use Rattle.layout.specs.Layout as Layout;
ghost use Rattle.listing.specs.Listing as Listing;
ghost use Rattle.numbered.specs.Numbered as Numbered;

use numbers::answer_of;

#[unsafe(no_mangle)]
pub extern "C" fn squeeze_listing(bytes: &[u8], text: &mut [u8], size: &mut [u32]) -> u32
    ensures { (result ≡ Listing.list_answer bytes.now text.old size.old) × (text.new ≡ Listing.text_after bytes.now text.old size.old) × (size.new ≡ Listing.size_after bytes.now text.old size.old) }
{
    answer_of(squeeze::lists::squeeze_listing(bytes, text, size))
}

#[unsafe(no_mangle)]
pub extern "C" fn squeeze_layout(
    bytes: &[u8],
    counts: &mut [u32],
    steps: &mut [u32],
    channels: &mut [u32],
    origins: &mut [u32],
) -> u32
    ensures { (result ≡ Layout.answer bytes.now (Layout.rows counts.old steps.old channels.old origins.old)) × (Layout.rows counts.new steps.new channels.new origins.new ≡ Layout.after bytes.now (Layout.rows counts.old steps.old channels.old origins.old)) }
{
    answer_of(squeeze::lists::squeeze_layout(bytes, counts, steps, channels, origins))
}

#[unsafe(no_mangle)]
pub extern "C" fn squeeze_record(
    version: u32,
    channels: &[u32],
    steps: &[u32],
    bytes: &mut [u8],
    size: &mut [u32],
) -> u32
    ensures { (result ≡ Numbered.answer version channels.now steps.now bytes.old size.old) × (bytes.new ≡ Numbered.record_after version channels.now steps.now bytes.old size.old) × (size.new ≡ Numbered.length_after version channels.now steps.now bytes.old size.old) }
{
    answer_of(squeeze::lists::squeeze_record(version, channels, steps, bytes, size))
}
