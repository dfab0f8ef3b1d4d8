// What the three volumes share: headers, going from one append to the next, digests and extents.
ghost use Rattle.std.specs.Prelude.{◌≤◌};

use format::new_block::NewBlock;
use format::{Extent, Logical, Physical};
use printing::bookmarks::NOWHERE;
use refusal::Refusal;
use std::io;
use volume::Bookmark;

// The inode numbers of the gauge's file and of the symbolic link to it.
pub const GAUGE: u64 = 7;

pub const OLD_NAME: u64 = 8;

// The multiplicities of an extent: blocks in a row, and one block repeated.
pub const ROW: u8 = 67;

pub const REPEATED: u8 = 82;

// The bookmark for the next append. No call here is meant to be refused; one that is says so, and leaves a gap that
// the volume check finds. Not that of `printing`, which has a line for each append that is accepted too.
fn onward(
    rt: &impl Print,
    mark: Bookmark,
    answer: Result<Bookmark, Refusal>,
) -> io::Result<Bookmark> {
    match answer {
        Ok(next) => Ok(next),
        Err(refusal) => {
            println!(rt; "{refusal} in writing at {}", mark.offset)?;
            Ok(mark)
        }
    }
}

// Internal: appends a block.
pub fn append(
    rt: &impl Print,
    mark: Bookmark,
    buf: &mut [u8],
    block: NewBlock<'_>,
) -> io::Result<Bookmark> {
    onward(rt, mark, mark.append(buf, block))
}

// Internal: the digest of a volume, which the header of the next one has. A volume here has a few hundred bytes and is not meant
// to be refused; if it is, the program says so, and the next volume has zeros, which name no volume.
pub fn digest(rt: &impl Print, volume: &[u8]) -> io::Result<[u8; 32]> {
    match sha256::sha256(volume) {
        Ok(digest) => Ok(digest),
        Err(fault) => {
            println!(rt; "refused {} in working out a digest", u64::from(fault))?;
            Ok([0u8; 32])
        }
    }
}

// Internal: begins a volume. `previous` is the digest of the volume before. Volume 0 has none before it, and must have zeros.
pub fn begin(
    rt: &impl Print,
    buf: &mut [u8],
    sequence: u64,
    previous: &[u8],
) -> io::Result<Bookmark> {
    let answer = volume::heading::write_header(buf, b"gauge at a river", sequence, previous);
    onward(rt, NOWHERE, answer)
}

// Internal: the extent of the first readings, a block of volume 0 that is kept whole. The others are written as what differs.
pub const READINGS: Extent = Extent {
    volume: 0,
    start: Physical(97),
    size: 95,
    multiplicity: ROW,
    count: 1,
    pre: 0,
    post: 0,
    logical: Logical(0),
};

// Internal: puts an extent into a list at `at`, its eight fields in the order of the layout. The bound, where the last of four
// extents begins, is there so that the sums fit.
pub fn put_extent(list: &mut [u8], at: usize, e: Extent)
    requires { at ≤ 171 }
{
    number::write_u64(list, at, e.volume);
    number::write_u64(list, at + 8, e.start.0);
    number::write_u64(list, at + 16, e.size);
    number::write_u8(list, at + 24, e.multiplicity);
    number::write_u64(list, at + 25, e.count);
    number::write_u64(list, at + 33, e.pre);
    number::write_u64(list, at + 41, e.post);
    number::write_u64(list, at + 49, e.logical.0);
}
