// Inode blocks: ID 1, inode 8, time 8, mode 2, uid 2, gid 2, atime 8, mtime 8, ctime 8, btime 8, size 8, n 8, n bytes, CRC 4.
ghost use Rattle.std.specs.Prelude.{◌≡◌, false, ◌+◌, ◌≤◌, ◌<◌, ◌++◌, length};
ghost use Rattle.number.specs.Number.{part};
ghost use Rattle.format.specs.Blocks.{inode_block, file_type, regular, symbolic_link, other};
ghost use Rattle.checks.specs.Checks.{first_fault};
ghost use Rattle.refusal.specs.Faults.{fault_number};
ghost use Rattle.block.specs.Order.{kind_order, too_long, rest_order};
ghost use Rattle.block.specs.inner.Decoded.{block_of};
ghost use Rattle.block.specs.Fields.{body_end};
ghost use Rattle.block.specs.inner.Parts.{sealed_order};

use crate::seal::sealed_fault;
use crate::{Block, InodeBlock, Part};
use crc32::Tables;
use format::kind::FileType;
use refusal::Fault;

const EXTENT_LEN: usize = 57;

// The bytes of 1,024 extents.
const MAX_LIST_LEN: u64 = 58368;

// The size of a file that is not regular, without a target.
const BARE_SIZE: u64 = 70;

// Internal: whether a regular file's list is longer than is allowed; only regular files have this limit.
pub fn is_too_long(mode: u16, n: u64) -> bool
    ensures { result ≡ too_long (file_type mode) n }
{
    match FileType::of(mode) {
        FileType::Regular => MAX_LIST_LEN < n,
        _ => false,
    }
}

// The first fault of a regular file's list of extents. The rules of every extent come before any overlap.
fn list_fault(list: &[u8]) -> Result<(), Fault>
    requires { length list.now ≤ 58368 }
    ensures { fault_number result ≡ first_fault (rest_order regular 0 list.now) }
{
    if list.len() % EXTENT_LEN != 0 {
        return Err(Fault::RuleBroken);
    }
    if extent::some_broken(list) {
        return Err(Fault::RuleBroken);
    }
    if extent::some_overlap(list) {
        return Err(Fault::RangesOverlap);
    }
    Ok(())
}

// The first fault of a symbolic link's size and target.
fn target_fault(size: u64, target: &[u8]) -> Result<(), Fault>
    ensures { fault_number result ≡ first_fault (rest_order symbolic_link size target.now) }
{
    if !utf8::is_text(target) {
        return Err(Fault::NotText);
    }
    if size != BARE_SIZE + target.len() as u64 {
        return Err(Fault::RuleBroken);
    }
    Ok(())
}

// The first fault of any other file's size and n bytes: it has no such bytes, and its size is fixed.
fn other_fault(size: u64, rest: &[u8]) -> Result<(), Fault>
    ensures { fault_number result ≡ first_fault (rest_order other size rest.now) }
{
    if rest.len() != 0 {
        return Err(Fault::RuleBroken);
    }
    if size != BARE_SIZE {
        return Err(Fault::RuleBroken);
    }
    Ok(())
}

// Internal: the first fault of an inode's size and n bytes, by file type.
pub fn rest_fault(mode: u16, size: u64, rest: &[u8]) -> Result<(), Fault>
    requires { too_long (file_type mode) (length rest.now) ≡ false }
    ensures { fault_number result ≡ first_fault (rest_order (file_type mode) size rest.now) }
{
    match FileType::of(mode) {
        FileType::Regular => list_fault(rest),
        FileType::SymbolicLink => target_fault(size, rest),
        FileType::Other => other_fault(size, rest),
    }
}

// The first fault in the end of the block at `offset`, whose n bytes begin at `from`, and then in these bytes.
fn end_fault(
    tables: Option<&Tables>,
    volume: &[u8],
    offset: usize,
    from: usize,
    mode: u16,
    size: u64,
    n: u64,
) -> Result<(), Fault>
    requires offset_le_from { (offset ≤ from) × (from ≤ length volume.now) × (too_long (file_type mode) n ≡ false) }
    ensures { fault_number result ≡ first_fault (sealed_order volume.now offset (from + n)
        ++ rest_order (file_type mode) size (part volume.now from n)) }
{
    sealed_fault(tables, volume, offset, from, n)?;
    rest_fault(mode, size, &volume[from..from + n as usize])
}

// The first fault of the inode block at `offset`.
pub(crate) fn inode_fault(
    tables: Option<&Tables>,
    volume: &[u8],
    offset: usize,
) -> Result<(), Fault>
    requires offset_in_bounds { offset < length volume.now }
    ensures { fault_number result ≡ first_fault (kind_order inode_block volume.now offset) }
{
    let from = offset + 71;
    if volume.len() < from {
        return Err(Fault::CutShort);
    }
    let mode = number::read_u16(volume, offset + 17);
    let size = number::read_u64(volume, offset + 55);
    let n = number::read_u64(volume, offset + 63);
    if is_too_long(mode, n) {
        return Err(Fault::OverLimit);
    }
    end_fault(tables, volume, offset, from, mode, size, n)
}

// The inode block at `offset`.
pub(crate) fn decode_inode(volume: &[u8], offset: usize) -> Block
    requires { body_end inode_block volume.now offset + 4 ≤ length volume.now }
    ensures { result ≡ block_of inode_block volume.now offset }
{
    let n = number::read_u64(volume, offset + 63) as usize;
    let inode = InodeBlock {
        number: number::read_u64(volume, offset + 1),
        time: number::read_u64(volume, offset + 9),
        mode: number::read_u16(volume, offset + 17),
        uid: number::read_u16(volume, offset + 19),
        gid: number::read_u16(volume, offset + 21),
        atime: number::read_u64(volume, offset + 23),
        mtime: number::read_u64(volume, offset + 31),
        ctime: number::read_u64(volume, offset + 39),
        btime: number::read_u64(volume, offset + 47),
        size: number::read_u64(volume, offset + 55),
        rest: Part {
            offset: offset + 71,
            len: n,
        },
    };
    Block::Inode(inode)
}

// The offset after the inode block at `offset`.
pub(crate) fn inode_end(volume: &[u8], offset: usize) -> usize
    requires { body_end inode_block volume.now offset + 4 ≤ length volume.now }
    ensures { result ≡ body_end inode_block volume.now offset + 4 }
{
    let n = number::read_u64(volume, offset + 63) as usize;
    offset + 71 + n + 4
}
