// Rename blocks: ID 1, time 8, n 2, m 2, old path n, new path m, CRC 4.
ghost use Rattle.std.specs.Prelude.{◌≡◌, ◌+◌, ◌≤◌, ◌<◌, length};
ghost use Rattle.format.specs.Blocks.{rename_block};
ghost use Rattle.checks.specs.Checks.{first_fault};
ghost use Rattle.refusal.specs.Faults.{fault_number};
ghost use Rattle.block.specs.Order.{kind_order};
ghost use Rattle.block.specs.inner.Decoded.{block_of};
ghost use Rattle.block.specs.Fields.{body_end};
ghost use Rattle.block.specs.inner.Parts.{paths_order};

use crate::text::text_fault;
use crate::{Block, Part, RenameBlock};
use crc32::Tables;
use refusal::Fault;

// The first fault of the block at `offset`, whose fixed fields end at `from` and whose two paths of `n` and `m` bytes come after them.
fn paths_fault(
    tables: Option<&Tables>,
    volume: &[u8],
    offset: usize,
    from: usize,
    n: usize,
    m: usize,
) -> Result<(), Fault>
    requires offset_le_from { (offset ≤ from) × (n < 65536) × (m < 65536) }
    ensures { fault_number result ≡ first_fault (paths_order volume.now offset from n m) }
{
    text_fault(tables, volume, offset, from, n, n + m)?;
    let middle = from + n;
    if !utf8::is_text(&volume[middle..middle + m]) {
        return Err(Fault::NotText);
    }
    Ok(())
}

// The first fault of the rename block at `offset`.
pub(crate) fn rename_fault(
    tables: Option<&Tables>,
    volume: &[u8],
    offset: usize,
) -> Result<(), Fault>
    requires offset_in_bounds { offset < length volume.now }
    ensures { fault_number result ≡ first_fault (kind_order rename_block volume.now offset) }
{
    let n = number::read_u16(volume, offset + 9) as usize;
    let m = number::read_u16(volume, offset + 11) as usize;
    paths_fault(tables, volume, offset, offset + 13, n, m)
}

// The rename block at `offset`.
pub(crate) fn decode_rename(volume: &[u8], offset: usize) -> Block
    requires { body_end rename_block volume.now offset + 4 ≤ length volume.now }
    ensures { result ≡ block_of rename_block volume.now offset }
{
    let n = number::read_u16(volume, offset + 9) as usize;
    let m = number::read_u16(volume, offset + 11) as usize;
    let rename = RenameBlock {
        time: number::read_u64(volume, offset + 1),
        old: Part {
            offset: offset + 13,
            len: n,
        },
        new: Part {
            offset: offset + 13 + n,
            len: m,
        },
    };
    Block::Rename(rename)
}

// The offset after the rename block at `offset`.
pub(crate) fn rename_end(volume: &[u8], offset: usize) -> usize
    requires { body_end rename_block volume.now offset + 4 ≤ length volume.now }
    ensures { result ≡ body_end rename_block volume.now offset + 4 }
{
    let n = number::read_u16(volume, offset + 9) as usize;
    let m = number::read_u16(volume, offset + 11) as usize;
    offset + 13 + (n + m) + 4
}
