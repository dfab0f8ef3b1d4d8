// The end of a block: whether its last bytes and the CRC are there, and whether the CRC is right.
ghost use Rattle.std.specs.Prelude.{◌≡◌, ◌+◌, ◌≤◌, length};
ghost use Rattle.checks.specs.Checks.{first_fault};
ghost use Rattle.refusal.specs.Faults.{fault_number};
ghost use Rattle.block.specs.inner.Parts.{sealed_order};

use crate::sum_wrong;
use crc32::Tables;
use refusal::Fault;

// The first fault in the end of the block at `offset`, whose variable parts are `n` bytes from `from` on.
// What is left is compared with `n` before `n` is added: it is any 64-bit number, and the sum may not fit.
pub(crate) fn sealed_fault(
    tables: Option<&Tables>,
    volume: &[u8],
    offset: usize,
    from: usize,
    n: u64,
) -> Result<(), Fault>
    requires offset_le_from { (offset ≤ from) × (from ≤ length volume.now) }
    ensures { fault_number result ≡ first_fault (sealed_order volume.now offset (from + n)) }
{
    let left = volume.len() - from;
    if left < 4 {
        return Err(Fault::CutShort);
    }
    if ((left - 4) as u64) < n {
        return Err(Fault::CutShort);
    }
    let end = from + n as usize;
    if sum_wrong(tables, volume, offset, end) {
        return Err(Fault::ChecksumWrong);
    }
    Ok(())
}
