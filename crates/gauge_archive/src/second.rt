// Volume 1: more readings, and a new name for the gauge's file; a symbolic link keeps the old name.
use crate::output::hand_out;
use crate::steps::{OLD_NAME, append, begin, digest};
use printing::blocks::{SYMBOLIC_LINK, data, inode, link, rename, table};
use std::io;
use std::rt::Runtime;
use volume::Bookmark;

pub const LEN: usize = 410;

// The payload begins at 137. Its first line was sent before, and at its last the sensor had failed.
fn readings(rt: &impl Print, buf: &mut [u8; LEN], mark: Bookmark) -> io::Result<Bookmark> {
    let links = b"\x07\0\0\0\0\0\0\0\x01\0\0\0\0\0\0\0\x09\0gauge.csv";
    let lines =
        b"2026-01-01 00:45;1,34\n2026-01-01 01:00;1,38\n2026-01-01 01:15;1,41\n2026-01-01 01:30;1,43\n2026-01-01 01:45;9,99\n";
    let next = append(rt, mark, buf, table(1, links))?;
    append(rt, next, buf, data(6, lines))
}

// The size that the rules give a symbolic link is 70 and the length of its target.
fn names(rt: &impl Print, buf: &mut [u8; LEN], first: Bookmark) -> io::Result<()> {
    let mut mark = append(rt, first, buf, rename(7, b"gauge.csv", b"river.csv"))?;
    mark = append(
        rt,
        mark,
        buf,
        inode(OLD_NAME, 8, SYMBOLIC_LINK, 79, b"river.csv"),
    )?;
    append(rt, mark, buf, link(9, OLD_NAME, b"gauge.csv"))?;
    Ok(())
}

// Internal: writes the volume after the one with the digest `previous`, hands it out and answers its own digest. The volume
// fills the buffer.
pub fn make(rt: &impl Runtime, buf: &mut [u8; LEN], previous: &[u8; 32]) -> io::Result<[u8; 32]> {
    let mut mark = begin(rt, buf, 1, previous)?;
    mark = readings(rt, buf, mark)?;
    names(rt, buf, mark)?;
    hand_out(rt, 2, buf)?;
    digest(rt, buf)
}
