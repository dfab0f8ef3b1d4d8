// What becomes of a volume that is written: a line about it, and a file if one is asked for.
use std::fs::OpenFile;
use std::io::Write;
use std::rt::Runtime;
use std::{env, fs, io};

fn store<R: Runtime>(rt: &R, name: &str, volume: &[u8]) -> io::Result<()> {
    let mut file = fs::create(rt, name)?;
    file.write_all(volume)?;
    // A disk may say only now that it is full.
    file.sync_all()
}

// Where a volume can't be saved, the program says so and goes on.
fn save<R: Runtime>(rt: &R, name: &str, volume: &[u8]) -> io::Result<()> {
    if let Err(error) = store(rt, name, volume) {
        eprintln!(rt; "{name}: {error}")?;
    }
    Ok(())
}

// Saves a volume under the name that argument `i` gives.
fn save_as<R: Runtime>(rt: &R, i: usize, volume: &[u8]) -> io::Result<()> {
    match env::args(rt)?.nth(i) {
        Some(name) => save(rt, name.as_str(), volume),
        None => Ok(()),
    }
}

// Internal: shows what the check answers of a volume, and saves it if there is a name for each of the three.
pub fn hand_out(rt: &impl Runtime, i: usize, volume: &[u8]) -> io::Result<()> {
    match volume::checking::check(volume) {
        Ok(v) => println!(rt;
            "volume {}: {} bytes, accepted, {} blocks",
            v.sequence, v.end.offset, v.end.number
        )?,
        Err(v) => println!(rt; "{} at {} after {} blocks", v.refusal, v.offset, v.blocks)?,
    }
    if env::args(rt)?.len() == 4 {
        save_as(rt, i, volume)?;
    }
    Ok(())
}
