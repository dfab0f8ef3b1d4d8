// Volumes from the folder data, one for each argument: what the check of the whole volume answers.
use printing::bookmarks::Shown;
use printing::load;
use std::rt::{Files, Runtime};
use std::{env, io};

// The row of one volume, read from the file of this name.
fn row(rt: &(impl Print + Eprint + Files), name: &str) -> io::Result<()> {
    let mut buf = [0u8; 65536];
    let n = load(rt, name.as_bytes(), &mut buf)?;
    match volume::checking::check(&buf[..n]) {
        Ok(v) => println!(rt;
            "{name}: accepted, volume {}, end {}",
            v.sequence,
            Shown(v.end)
        ),
        Err(v) => println!(rt;
            "{name}: {} at {} after {} blocks",
            v.refusal, v.offset, v.blocks
        ),
    }
}

pub fn all<R: Runtime>(rt: &R) -> io::Result<()> {
    for name in env::args(rt)?.skip(1) {
        row(rt, name.as_str())?;
    }
    Ok(())
}
