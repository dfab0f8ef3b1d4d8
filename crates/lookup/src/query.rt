// The two questions about the positions of a file: what stands at one position, and the runs of a range.
ghost use Rattle.std.specs.Prelude.{◌≡◌, length};
ghost use Rattle.lookup.specs.inner.Answers.{position_answer, runs_answer, runs_room};

use crate::faults::{list_of, lookup_fault};
use crate::{Position, Stored};
use format::Logical;
use refusal::{Fault, Refusal};
use texts::refusal_at;

// What stands at a position of the file whose inode block is at `offset`. `lengths` has the lengths of the volumes, 8 bytes
// each; every extent of the file is checked against them, whatever position is asked.
pub fn position(
    volume: &[u8],
    offset: usize,
    lengths: &[u8],
    position: Logical,
) -> Result<Position, Refusal>
    ensures { result ≡ position_answer volume.now offset lengths.now position.0 }
{
    if let Err(fault) = lookup_fault(volume, offset, lengths) {
        return Err(refusal_at(volume, offset, fault));
    }
    let size = Logical(number::read_u64(volume, offset + 55));
    // The size of a file is the position at which it ends.
    if size <= position {
        return Ok(Position::PastEnd);
    }
    match runs::locate(list_of(volume, offset), position) {
        None => Ok(Position::Hole),
        Some((volume, offset)) => Ok(Position::Stored(Stored { volume, offset })),
    }
}

// The runs from `from` to below `to`, stored in the lent list, five numbers each: logical start, length, kind (0 hole,
// 1 stored), volume, offset. The answer says how many there are.
pub fn runs(
    volume: &[u8],
    offset: usize,
    lengths: &[u8],
    from: Logical,
    to: Logical,
    out: &mut [u64],
) -> Result<u64, Refusal>
    ensures answer { result ≡ runs_answer volume.now offset lengths.now from.0 to.0
        (length out.old) }
    ensures room { out.new ≡ runs_room volume.now offset lengths.now from.0 to.0
        out.old }
{
    if let Err(fault) = lookup_fault(volume, offset, lengths) {
        return Err(refusal_at(volume, offset, fault));
    }
    let size = Logical(number::read_u64(volume, offset + 55));
    let list = list_of(volume, offset);
    runs::range(list, size, from, to, out).ok_or(Refusal::from(Fault::RoomTooSmall))
}
