// What a lookup is refused for: the lengths, the block, and what its extents name, in this order.
ghost use Rattle.std.specs.Prelude.{◌≡◌, false, ◌+◌, ◌≤◌, ◌<◌, length};
ghost use Rattle.checks.specs.Checks.{first_fault};
ghost use Rattle.refusal.specs.Faults.{fault_number};
ghost use Rattle.format.specs.Blocks.{inode_block};
ghost use Rattle.block.specs.Fields.{id_at, body_end, rest_at};
ghost use Rattle.block.specs.Order.{unknown_id};
ghost use Rattle.lookup.specs.Lookup.{lengths_wrong, not_file, open_order, lookup_fault};

use crate::presence::{ENTRY_LEN, some_absent, some_stray};
use extent::Extents;
use format::kind::{FileType, Kind};
use refusal::Fault;

// The most lengths that may be lent.
const MAX_ENTRIES: usize = 4096;

// Whether the lengths are no whole entries, or too many.
#[tactic(auto, unfolding(crate::specs::Lookup::lengths_wrong))]
fn lengths_wrong(lengths: &[u8]) -> bool
    ensures { result ≡ lengths_wrong lengths.now }
{
    lengths.len() % ENTRY_LEN != 0 || MAX_ENTRIES < lengths.len() / ENTRY_LEN
}

// Whether the block is not the inode of a regular file.
fn not_file(volume: &[u8], offset: usize) -> bool
    requires { (offset < length volume.now) × (unknown_id (id_at volume.now offset) ≡ false) }
    ensures { result ≡ not_file volume.now offset }
{
    match block::kind_at(volume, offset) {
        Kind::Inode => FileType::of(number::read_u16(volume, offset + 17)) != FileType::Regular,
        _ => true,
    }
}

// The list of extents of the inode block at `offset`, as a part of the volume.
#[tactic(auto, unfolding(block::specs::Fields::body_length))]
pub(crate) fn list_of(volume: &[u8], offset: usize) -> &[u8]
    requires { body_end inode_block volume.now offset + 4 ≤ length volume.now }
    ensures { result.now ≡ rest_at volume.now offset }
{
    let from = offset + 71;
    let n = number::read_u64(volume, offset + 63) as usize;
    &volume[from..from + n]
}

// The first fault that a lookup meets as it opens the file at `offset`: that of the lengths, of the block, or that the
// block is no regular file's inode.
fn open_fault(volume: &[u8], offset: usize, lengths: &[u8]) -> Result<(), Fault>
    ensures { fault_number result ≡ first_fault (open_order volume.now offset lengths.now) }
{
    if lengths_wrong(lengths) {
        return Err(Fault::OverLimit);
    }
    block::block_fault(None, volume, offset, false)?;
    if not_file(volume, offset) {
        return Err(Fault::NotRegularFile);
    }
    Ok(())
}

// The first fault of a lookup in the inode block at `offset`.
pub(crate) fn lookup_fault(volume: &[u8], offset: usize, lengths: &[u8]) -> Result<(), Fault>
    ensures { fault_number result ≡ lookup_fault volume.now offset lengths.now }
{
    open_fault(volume, offset, lengths)?;
    let extents = Extents {
        list: list_of(volume, offset),
    };
    if some_absent(lengths, &extents) {
        return Err(Fault::NotThere);
    }
    if some_stray(&extents) {
        return Err(Fault::Stray);
    }
    Ok(())
}
