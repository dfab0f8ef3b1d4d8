// Xattr blocks: ID 1, time 8, inode 8, n 1, m 2, name n, value m, CRC 4; removed ones have no m and no value.
ghost use Rattle.std.specs.Prelude.{◌≡◌, ◌+◌, ◌≤◌, ◌<◌, length};
ghost use Rattle.format.specs.Blocks.{xattr_block, removed_xattr_block};
ghost use Rattle.checks.specs.Checks.{first_fault};
ghost use Rattle.refusal.specs.Faults.{fault_number};
ghost use Rattle.block.specs.Order.{kind_order};
ghost use Rattle.block.specs.inner.Decoded.{block_of};
ghost use Rattle.block.specs.Fields.{body_end};

use crate::text::text_fault;
use crate::{Block, Part, RemovedXattrBlock, XattrBlock};
use crc32::Tables;
use refusal::Fault;

// The first fault of the xattr block at `offset`. Its value is raw bytes.
pub(crate) fn xattr_fault(
    tables: Option<&Tables>,
    volume: &[u8],
    offset: usize,
) -> Result<(), Fault>
    requires offset_in_bounds { offset < length volume.now }
    ensures { fault_number result ≡ first_fault (kind_order xattr_block volume.now offset) }
{
    let n = number::read_u8(volume, offset + 17) as usize;
    let m = number::read_u16(volume, offset + 18) as usize;
    text_fault(tables, volume, offset, offset + 20, n, n + m)
}

// The first fault of the removed xattr block at `offset`.
pub(crate) fn removed_xattr_fault(
    tables: Option<&Tables>,
    volume: &[u8],
    offset: usize,
) -> Result<(), Fault>
    requires offset_in_bounds { offset < length volume.now }
    ensures { fault_number result ≡ first_fault (kind_order removed_xattr_block volume.now offset) }
{
    let n = number::read_u8(volume, offset + 17) as usize;
    text_fault(tables, volume, offset, offset + 18, n, n)
}

// The xattr block at `offset`.
pub(crate) fn decode_xattr(volume: &[u8], offset: usize) -> Block
    requires { body_end xattr_block volume.now offset + 4 ≤ length volume.now }
    ensures { result ≡ block_of xattr_block volume.now offset }
{
    let n = number::read_u8(volume, offset + 17) as usize;
    let m = number::read_u16(volume, offset + 18) as usize;
    let xattr = XattrBlock {
        time: number::read_u64(volume, offset + 1),
        number: number::read_u64(volume, offset + 9),
        name: Part {
            offset: offset + 20,
            len: n,
        },
        value: Part {
            offset: offset + 20 + n,
            len: m,
        },
    };
    Block::Xattr(xattr)
}

// The removed xattr block at `offset`.
pub(crate) fn decode_removed_xattr(volume: &[u8], offset: usize) -> Block
    requires { body_end removed_xattr_block volume.now offset + 4 ≤ length volume.now }
    ensures { result ≡ block_of removed_xattr_block volume.now offset }
{
    let n = number::read_u8(volume, offset + 17) as usize;
    let removed = RemovedXattrBlock {
        time: number::read_u64(volume, offset + 1),
        number: number::read_u64(volume, offset + 9),
        name: Part {
            offset: offset + 18,
            len: n,
        },
    };
    Block::RemovedXattr(removed)
}

// The offset after the xattr block at `offset`.
pub(crate) fn xattr_end(volume: &[u8], offset: usize) -> usize
    requires { body_end xattr_block volume.now offset + 4 ≤ length volume.now }
    ensures { result ≡ body_end xattr_block volume.now offset + 4 }
{
    let n = number::read_u8(volume, offset + 17) as usize;
    let m = number::read_u16(volume, offset + 18) as usize;
    offset + 20 + (n + m) + 4
}

// The offset after the removed xattr block at `offset`.
pub(crate) fn removed_xattr_end(volume: &[u8], offset: usize) -> usize
    requires { body_end removed_xattr_block volume.now offset + 4 ≤ length volume.now }
    ensures { result ≡ body_end removed_xattr_block volume.now offset + 4 }
{
    let n = number::read_u8(volume, offset + 17) as usize;
    offset + 18 + n + 4
}
