// Data blocks: ID 1, time 8, n 8, payload n, CRC 4.
ghost use Rattle.std.specs.Prelude.{◌≡◌, ◌+◌, ◌≤◌, ◌<◌, length};
ghost use Rattle.format.specs.Blocks.{data_block};
ghost use Rattle.checks.specs.Checks.{first_fault};
ghost use Rattle.refusal.specs.Faults.{fault_number};
ghost use Rattle.block.specs.Order.{kind_order};
ghost use Rattle.block.specs.inner.Decoded.{block_of};
ghost use Rattle.block.specs.Fields.{body_end};

use crate::seal::sealed_fault;
use crate::{Block, DataBlock, Part};
use crc32::Tables;
use refusal::Fault;

// The first fault of the data block at `offset`.
pub(crate) fn data_fault(tables: Option<&Tables>, volume: &[u8], offset: usize) -> Result<(), Fault>
    requires offset_in_bounds { offset < length volume.now }
    ensures { fault_number result ≡ first_fault (kind_order data_block volume.now offset) }
{
    let from = offset + 17;
    if volume.len() < from {
        return Err(Fault::CutShort);
    }
    let n = number::read_u64(volume, offset + 9);
    sealed_fault(tables, volume, offset, from, n)
}

// The data block at `offset`.
pub(crate) fn decode_data(volume: &[u8], offset: usize) -> Block
    requires { body_end data_block volume.now offset + 4 ≤ length volume.now }
    ensures { result ≡ block_of data_block volume.now offset }
{
    let n = number::read_u64(volume, offset + 9) as usize;
    let data = DataBlock {
        time: number::read_u64(volume, offset + 1),
        payload: Part {
            offset: offset + 17,
            len: n,
        },
    };
    Block::Data(data)
}

// The offset after the data block at `offset`.
pub(crate) fn data_end(volume: &[u8], offset: usize) -> usize
    requires { body_end data_block volume.now offset + 4 ≤ length volume.now }
    ensures { result ≡ body_end data_block volume.now offset + 4 }
{
    let n = number::read_u64(volume, offset + 9) as usize;
    offset + 17 + n + 4
}
