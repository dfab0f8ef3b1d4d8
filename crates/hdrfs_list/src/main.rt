// Lists the volume on standard input: writes the text of listing::list to standard output.
#![tactic(auto)]

ghost use Rattle.std.specs.Prelude.{◌≡◌, ◌≤◌, length, take};
ghost use Rattle.io.specs.Counts.{IsPrefixLen};
ghost use Rattle.listing.specs.Listing.{list_limit};
ghost use Rattle.listing.specs.inner.Text.{listing};

use std::io::{self, Write};

// Writes the listing into a room that is long enough for every text, and answers how long the text is.
fn write_listing(volume: &[u8], room: &mut [u8]) -> usize
    requires { list_limit ≤ length room.old }
    ensures prefix_len { IsPrefixLen result room.new }
    ensures room_after { take result room.new ≡ listing volume.now }
{
    // The 0 never comes: no text has more than 65,536 bytes.
    listing::list(volume, room).unwrap_or(0)
}

fn main(rt: HostRuntime) -> io::Result<()> {
    // One byte more than the longest volume that is listed, so that a longer one is told from it.
    let mut volume = [0u8; 65537];
    let len = printing::read_full(&mut rt.reader(), &mut volume)?;
    let mut text = [0u8; 65536];
    let written = write_listing(&volume[..len], &mut text);
    io::writer(&rt).write_all(&text[..written])
}
