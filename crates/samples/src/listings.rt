// Listings: of a volume of one byte more than can be listed, where refusal 1 stands in the text after the heading, of two volumes
// of two blocks, whose second time is the same and lower, and of one whose first block has a bad text.
use printing::{load, print_bytes};
use std::io;
use std::rt::Files;

// The room is as long as the text must be: a longer text is refused and a shorter one leaves zeros, and both show in the room. So
// the answer is not looked at.
fn listed(rt: &impl Print, volume: &[u8], text: &mut [u8]) -> io::Result<()> {
    let _ = listing::list(volume, text);
    print_bytes(rt, text)
}

pub fn too_long(rt: &impl Print) -> io::Result<()> {
    listed(rt, &[0u8; 65537], &mut [0u8; 32])
}

fn row(rt: &(impl Print + Eprint + Files), name: &str, text: &mut [u8]) -> io::Result<()> {
    let mut volume = [0u8; 256];
    let n = load(rt, name.as_bytes(), &mut volume)?;
    println!(rt; "{name}, listed:")?;
    listed(rt, &volume[..n], text)
}

pub fn times(rt: &(impl Print + Eprint + Files)) -> io::Result<()> {
    row(rt, "same_time.vol", &mut [0u8; 51])?;
    row(rt, "lower_time.vol", &mut [0u8; 43])?;
    Ok(())
}

// The last line says no more than the number and the offset, of a text that is not UTF-8 too.
pub fn not_text(rt: &(impl Print + Eprint + Files)) -> io::Result<()> {
    row(rt, "new_path_bad.vol", &mut [0u8; 34])?;
    Ok(())
}
