// Volume 0: the first readings, what stands for a missing one, and the gauge's file with its name and unit.
use crate::output::hand_out;
use crate::steps::{GAUGE, READINGS, append, begin, digest, put_extent};
use printing::blocks::{REGULAR, data, inode, link, xattr};
use std::io;
use std::rt::Runtime;
use volume::Bookmark;

pub const LEN: usize = 421;

// The payloads begin at 97 and 213.
fn readings(rt: &impl Print, buf: &mut [u8; LEN], mark: Bookmark) -> io::Result<Bookmark> {
    let lines =
        b"time;m\n2026-01-01 00:00;1,25\n2026-01-01 00:15;1,27\n2026-01-01 00:30;1,30\n2026-01-01 00:45;1,34\n";
    let next = append(rt, mark, buf, data(1, lines))?;
    // The line break stands first. A file that repeats this block leaves out the first byte of the first copy and the last
    // two of the last, and so has whole lines.
    append(rt, next, buf, data(2, b"\n-;"))
}

// The first version of the file: these readings.
fn file(rt: &impl Print, buf: &mut [u8; LEN], mark: Bookmark) -> io::Result<Bookmark> {
    let mut list = [0u8; 57];
    put_extent(&mut list, 0, READINGS);
    append(rt, mark, buf, inode(GAUGE, 3, REGULAR, 95, &list))
}

fn name_and_unit(rt: &impl Print, buf: &mut [u8; LEN], mark: Bookmark) -> io::Result<()> {
    let next = append(rt, mark, buf, link(4, GAUGE, b"gauge.csv"))?;
    append(rt, next, buf, xattr(5, GAUGE, b"unit", b"m"))?;
    Ok(())
}

// Internal: writes the volume, hands it out and answers its digest. The volume fills the buffer.
pub fn make(rt: &impl Runtime, buf: &mut [u8; LEN]) -> io::Result<[u8; 32]> {
    let mut mark = begin(rt, buf, 0, &[0u8; 32])?;
    mark = readings(rt, buf, mark)?;
    mark = file(rt, buf, mark)?;
    name_and_unit(rt, buf, mark)?;
    hand_out(rt, 1, buf)?;
    digest(rt, buf)
}
