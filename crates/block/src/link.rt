// Link and unlink blocks, which have one layout: ID 1, time 8, child 8, parent 8, n 2, name n, CRC 4.
ghost use Rattle.std.specs.Prelude.{◌≡◌, ◌+◌, ◌≤◌, ◌<◌, length};
ghost use Rattle.format.specs.Blocks.{link_block};
ghost use Rattle.checks.specs.Checks.{first_fault};
ghost use Rattle.refusal.specs.Faults.{fault_number};
ghost use Rattle.block.specs.Order.{kind_order};
ghost use Rattle.block.specs.inner.Decoded.{link_block_of};
ghost use Rattle.block.specs.Fields.{body_end};

use crate::text::text_fault;
use crate::{LinkBlock, Part};
use crc32::Tables;
use refusal::Fault;

// The first fault of the link block at `offset`. An unlink block has the same checks.
pub(crate) fn link_fault(tables: Option<&Tables>, volume: &[u8], offset: usize) -> Result<(), Fault>
    requires offset_in_bounds { offset < length volume.now }
    ensures { fault_number result ≡ first_fault (kind_order link_block volume.now offset) }
{
    let n = number::read_u16(volume, offset + 25) as usize;
    text_fault(tables, volume, offset, offset + 27, n, n)
}

// The fields of the link block at `offset`. An unlink block has the same.
pub(crate) fn decode_link(volume: &[u8], offset: usize) -> LinkBlock
    requires { body_end link_block volume.now offset + 4 ≤ length volume.now }
    ensures { result ≡ link_block_of link_block volume.now offset }
{
    LinkBlock {
        time: number::read_u64(volume, offset + 1),
        child: number::read_u64(volume, offset + 9),
        parent: number::read_u64(volume, offset + 17),
        name: Part {
            offset: offset + 27,
            len: number::read_u16(volume, offset + 25) as usize,
        },
    }
}

// The offset after the link block at `offset`. An unlink block has the same layout.
pub(crate) fn link_end(volume: &[u8], offset: usize) -> usize
    requires { body_end link_block volume.now offset + 4 ≤ length volume.now }
    ensures { result ≡ body_end link_block volume.now offset + 4 }
{
    let n = number::read_u16(volume, offset + 25) as usize;
    offset + 27 + n + 4
}
