// Reading the block at a bookmark.
ghost use Rattle.std.specs.Prelude.{◌≡◌, ◌<◌, length};
ghost use Rattle.checks.specs.Checks.{first_fault};
ghost use Rattle.refusal.specs.Faults.{fault_number};
ghost use Rattle.format.specs.Extents.{top};
ghost use Rattle.block.specs.inner.Decoded.{block_at, time_of_block};
ghost use Rattle.volume.specs.Reading.{is_end, may_follow, count_full, follow_order, read_fault, mark_after, next_mark, read_answer};

use crate::{Bookmark, Found};
use block::limits::{HEADER_LEN, VOLUME_LIMIT};
use crc32::Tables;
use format::kind::Kind;
use refusal::{Fault, Refusal};
use texts::refusal_at;

// The most blocks that a bookmark can count.
const MOST_BLOCKS: u64 = u64::MAX;

// Whether the bookmark stands at the end of the volume, with nothing due there.
pub(crate) fn is_end(volume: &[u8], mark: Bookmark) -> bool
    ensures { result ≡ is_end volume.now mark }
{
    if VOLUME_LIMIT < volume.len() {
        return false;
    }
    if mark.offset < HEADER_LEN {
        return false;
    }
    if mark.offset != volume.len() {
        return false;
    }
    !mark.due
}

// The time of the block at `offset`, if it has one. It stands after the ID, and in an inode block after the inode's number; a
// table has none.
fn time_at(volume: &[u8], offset: usize) -> Option<u64>
    requires { offset < length volume.now }
    ensures { result ≡ time_of_block (block_at volume.now offset) }
{
    match block::kind_at(volume, offset) {
        Kind::Inode => Some(number::read_u64(volume, offset + 9)),
        Kind::Table => None,
        _ => Some(number::read_u64(volume, offset + 1)),
    }
}

// The time rule: whether a block with this time may follow.
pub(crate) fn may_follow(last: Option<u64>, time: Option<u64>) -> bool
    ensures { result ≡ may_follow last time }
{
    match (last, time) {
        (Some(old), Some(new)) => old <= new,
        _ => true,
    }
}

// Whether no block more can be counted after this bookmark.
pub(crate) fn count_full(mark: Bookmark) -> bool
    ensures { result ≡ count_full mark }
{
    MOST_BLOCKS <= mark.number
}

// The first fault of a block with this time that follows the bookmark: its time, and then that it cannot be counted.
fn follow_fault(mark: Bookmark, time: Option<u64>) -> Result<(), Fault>
    ensures { fault_number result ≡ first_fault (follow_order mark time) }
{
    if !may_follow(mark.last, time) {
        return Err(Fault::TimeLower);
    }
    if count_full(mark) {
        return Err(Fault::OverLimit);
    }
    Ok(())
}

// The first fault of the block at the bookmark: its own, and then that of what it follows.
pub(crate) fn read_fault(
    tables: Option<&Tables>,
    volume: &[u8],
    mark: Bookmark,
) -> Result<(), Fault>
    ensures { fault_number result ≡ read_fault volume.now mark }
{
    let offset = mark.offset;
    block::block_fault(tables, volume, offset, mark.due)?;
    follow_fault(mark, time_at(volume, offset))
}

// The bookmark after the block at `mark`, which ends at `end`: the one place where a bookmark is made from another.
pub(crate) fn mark_after(mark: Bookmark, end: usize, time: Option<u64>) -> Bookmark
    requires { mark.number < top }
    ensures { result ≡ mark_after mark end time }
{
    Bookmark {
        offset: end,
        due: false,
        last: time.or(mark.last),
        number: mark.number + 1,
    }
}

// The bookmark after the block at `mark`, which has no fault. A walk that needs no block calls this and decodes none.
pub(crate) fn next_mark(volume: &[u8], mark: Bookmark) -> Bookmark
    requires { read_fault volume.now mark ≡ 0 }
    ensures { result ≡ next_mark volume.now mark }
{
    let offset = mark.offset;
    let end = block::end_at(volume, offset);
    mark_after(mark, end, time_at(volume, offset))
}

impl Bookmark {
    // Reads the block at the bookmark: the block with its number and the bookmark after it, "end", or the refusal.
    pub fn read(self, volume: &[u8]) -> Result<Option<Found>, Refusal>
        ensures { result ≡ read_answer volume.now self }
    {
        self.read_by(None, volume)
    }

    // Internal: the same with lent tables, for a walk over many blocks.
    pub fn read_by(self, tables: Option<&Tables>, volume: &[u8]) -> Result<Option<Found>, Refusal>
        ensures { result ≡ read_answer volume.now self }
    {
        if is_end(volume, self) {
            return Ok(None);
        }
        if let Err(fault) = read_fault(tables, volume, self) {
            return Err(refusal_at(volume, self.offset, fault));
        }
        Ok(Some(Found {
            block: block::decode(volume, self.offset),
            number: self.number,
            next: next_mark(volume, self),
        }))
    }
}
