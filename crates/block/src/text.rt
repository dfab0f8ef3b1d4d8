// Blocks whose variable parts begin with a text.
ghost use Rattle.std.specs.Prelude.{◌≡◌, ◌≤◌};
ghost use Rattle.checks.specs.Checks.{first_fault};
ghost use Rattle.refusal.specs.Faults.{fault_number};
ghost use Rattle.block.specs.inner.Parts.{text_order};

use crate::seal::sealed_fault;
use crc32::Tables;
use refusal::Fault;

// The first fault of the block at `offset`, whose fixed fields end at `from` and whose variable parts are the `len` bytes after them,
// of which the first `text` are a text.
pub(crate) fn text_fault(
    tables: Option<&Tables>,
    volume: &[u8],
    offset: usize,
    from: usize,
    text: usize,
    len: usize,
) -> Result<(), Fault>
    requires offset_le_from { (offset ≤ from) × (text ≤ len) }
    ensures { fault_number result ≡ first_fault (text_order volume.now offset from text len) }
{
    if volume.len() < from {
        return Err(Fault::CutShort);
    }
    sealed_fault(tables, volume, offset, from, len as u64)?;
    if !utf8::is_text(&volume[from..from + text]) {
        return Err(Fault::NotText);
    }
    Ok(())
}
