// The program squeeze-list (document 01): prints what crate `listing` gives for
// the bytes of standard input. More are read than are judged, so that the cut is
// made there.
#![tactic(auto)]

ghost use Rattle.std.specs.Prelude.{OnOk, IfSome};
ghost use Rattle.std.specs.Io.KnownBytes.{Appends};
ghost use Rattle.listing.specs.Listing.{printed};

use listing::{JUDGED_BYTES, LISTING_ROOM};
use std::io;
use std::io::{Read, Write};

const INPUT_ROOM: usize = 2 * JUDGED_BYTES;

// Writes what the program prints for the bytes that `input` has left.
fn print_listing<R: Read, W: Write>(input: &mut R, output: &mut W) -> io::Result<()>
    ensures { OnOk result (IfSome (R.remaining input.old) (λ bytes. Appends (W.contents output.old) (W.contents output.new) (printed bytes))) }
{
    let mut room = [0u8; INPUT_ROOM];
    let count = reading::read_full(input, &mut room)?;
    let mut text = [0u8; LISTING_ROOM];
    let length = listing::list_input(&room[..count], &mut text);
    output.write_all(&text[..length])
}

fn main(rt: HostRuntime) -> io::Result<()> {
    print_listing(&mut rt.reader(), &mut io::writer(&rt))
}
