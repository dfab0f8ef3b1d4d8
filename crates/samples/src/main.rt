// Runs vectors from outside against the library and prints what it answers; the file stdout has what it must print.
#![tactic(auto)]

mod bad_texts;
mod bookmarks;
mod characters;
mod listings;
mod sums;
mod volumes;

use std::io;

fn main(rt: HostRuntime) -> io::Result<()> {
    sums::all(&rt)?;
    characters::well_formed(&rt)?;
    characters::at_the_edges(&rt)?;
    characters::too_long(&rt)?;
    characters::surrogates_and_above(&rt)?;
    characters::cut_and_stray(&rt)?;
    listings::too_long(&rt)?;
    volumes::all(&rt)?;
    listings::times(&rt)?;
    listings::not_text(&rt)?;
    bookmarks::all(&rt)?;
    bad_texts::all(&rt)?;
    Ok(())
}
