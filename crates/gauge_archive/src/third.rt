// Volume 2: the last readings, and the current version of the gauge's file.
use crate::output::hand_out;
use crate::steps::{GAUGE, READINGS, REPEATED, append, begin, put_extent};
use format::{Extent, Logical, Physical};
use printing::blocks::{REGULAR, data, inode, table};
use std::io;
use std::rt::Runtime;
use volume::Bookmark;

pub const LEN: usize = 513;

// The payload begins at 164.
fn readings(rt: &impl Print, buf: &mut [u8; LEN], mark: Bookmark) -> io::Result<Bookmark> {
    let links =
        b"\x07\0\0\0\0\0\0\0\x01\0\0\0\0\0\0\0\x09\0river.csv\x08\0\0\0\0\0\0\0\x01\0\0\0\0\0\0\0\x09\0gauge.csv";
    let next = append(rt, mark, buf, table(2, links))?;
    let lines = b"2026-01-01 03:45;1,48\n2026-01-01 04:00;1,5";
    append(rt, next, buf, data(10, lines))
}

// Seven copies of what stands for a missing reading.
const MISSING: Extent = Extent {
    start: Physical(213),
    size: 3,
    multiplicity: REPEATED,
    count: 8,
    pre: 1,
    post: 2,
    logical: Logical(161),
    ..READINGS
};

// The three good lines in the middle of five.
const GOOD: Extent = Extent {
    volume: 1,
    start: Physical(137),
    size: 22,
    count: 5,
    pre: 22,
    post: 22,
    logical: Logical(95),
    ..READINGS
};

const LAST: Extent = Extent {
    volume: 2,
    start: Physical(164),
    size: 42,
    logical: Logical(204),
    ..READINGS
};

// The extents stand in the order of the volumes, which is not that of the file: the readings of volume 0, seven lines for
// missing readings, the three good lines of the five in volume 1, and the last readings. Nothing is stored from 182 to 204:
// a line's length of zero bytes, since nobody knows whether there was a reading.
fn file(rt: &impl Print, buf: &mut [u8; LEN], mark: Bookmark) -> io::Result<()> {
    let mut list = [0u8; 228];
    put_extent(&mut list, 0, READINGS);
    put_extent(&mut list, 57, MISSING);
    put_extent(&mut list, 114, GOOD);
    put_extent(&mut list, 171, LAST);
    append(rt, mark, buf, inode(GAUGE, 11, REGULAR, 246, &list))?;
    Ok(())
}

// Internal: writes the volume after the one with the digest `previous`, and hands it out.
pub fn make(rt: &impl Runtime, buf: &mut [u8; LEN], previous: &[u8; 32]) -> io::Result<()> {
    let mut mark = begin(rt, buf, 2, previous)?;
    mark = readings(rt, buf, mark)?;
    file(rt, buf, mark)?;
    hand_out(rt, 3, buf)?;
    Ok(())
}
