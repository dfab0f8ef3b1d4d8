// Readings from bookmarks on, each until the end or a refusal: from that of a header, and from some that no call hands out.
use printing::bookmarks::{FIRST, FULL, MOST_BLOCKS, print_readings};
use printing::load;
use std::io;
use std::rt::Files;
use volume::Bookmark;

pub fn from_header(rt: &impl Print, volume: &[u8]) -> io::Result<()> {
    match volume::heading::read_header(volume) {
        Ok(header) => print_readings(rt, volume, header.next),
        Err(refusal) => println!(rt; "{refusal}"),
    }
}

// A volume with a block of every kind: its table is block 0.
fn every_kind(rt: &(impl Print + Eprint + Files)) -> io::Result<()> {
    let mut buf = [0u8; 1024];
    let n = load(rt, b"all_kinds.vol", &mut buf)?;
    println!(rt; "all_kinds.vol, read:")?;
    from_header(rt, &buf[..n])
}

// A volume that begins with an empty table and data at time 7. The table has no time, so the data is held to the last time of
// the bookmark that was made up.
fn times(rt: &(impl Print + Eprint + Files)) -> io::Result<()> {
    let mut buf = [0u8; 256];
    let n = load(rt, b"earlier_time.vol", &mut buf)?;
    let volume = &buf[..n];
    println!(rt; "earlier_time.vol, read:")?;
    let due = Bookmark { due: true, ..FIRST };
    let same = Bookmark {
        last: Some(7),
        ..due
    };
    let later = Bookmark {
        last: Some(8),
        ..due
    };
    print_readings(rt, volume, due)?;
    print_readings(rt, volume, same)?;
    print_readings(rt, volume, later)
}

// The sample volume V: data at time 7 alone. That a block can't be counted is found after every other fault. The end is no
// block, and is found at every number.
fn numbers(rt: &(impl Print + Eprint + Files)) -> io::Result<()> {
    let mut buf = [0u8; 256];
    let n = load(rt, b"v.vol", &mut buf)?;
    let volume = &buf[..n];
    println!(rt; "v.vol, read:")?;
    let end = Bookmark {
        offset: 104,
        last: Some(7),
        ..FULL
    };
    let counted = Bookmark {
        number: MOST_BLOCKS - 1,
        ..FULL
    };
    let later = Bookmark {
        last: Some(8),
        ..FULL
    };
    let past = Bookmark {
        offset: 105,
        ..FULL
    };
    print_readings(rt, volume, FULL)?;
    print_readings(rt, volume, end)?;
    print_readings(rt, volume, counted)?;
    print_readings(rt, volume, later)?;
    print_readings(rt, volume, Bookmark { due: true, ..FULL })?;
    print_readings(rt, volume, Bookmark { offset: 79, ..FULL })?;
    print_readings(rt, volume, past)
}

// V with a checksum that is wrong.
fn damaged(rt: &(impl Print + Eprint + Files)) -> io::Result<()> {
    let mut buf = [0u8; 256];
    let n = load(rt, b"wrong_block_sum.vol", &mut buf)?;
    println!(rt; "wrong_block_sum.vol, read:")?;
    let later = Bookmark {
        last: Some(8),
        ..FULL
    };
    print_readings(rt, &buf[..n], later)
}

pub fn all(rt: &(impl Print + Eprint + Files)) -> io::Result<()> {
    every_kind(rt)?;
    times(rt)?;
    numbers(rt)?;
    damaged(rt)?;
    Ok(())
}
