// How much of a volume is left where its end was cut off within a block, as when power is lost during an append.
//
// Public call: `repair`. It changes nothing: whoever calls it copies the beginning that it answers. The check is all the work.
// Callers: exchange, for whoever has a file that ends too early and wants its whole blocks back.
#![tactic(auto)]

ghost use Rattle.std.specs.Prelude.{◌≡◌};
ghost use Rattle.refusal.specs.Faults.{number_of};
ghost use Rattle.repair.specs.Repairing.{is_torn, repair_answer};

use block::limits::HEADER_LEN;
use refusal::{Fault, Refusal};
use volume::checking::check;

// Where a header has the sequence number.
const SEQUENCE_AT: usize = 36;

// Whether the fault, at this offset of a volume with this sequence number, is that the bytes end within a block, and that is not the
// link table.
fn is_torn(sequence: u64, fault: Fault, offset: usize) -> bool
    ensures { result ≡ is_torn sequence (number_of fault) offset }
{
    if fault != Fault::CutShort {
        return false;
    }
    // The header is cut. No beginning of it is a volume.
    if offset == 0 {
        return false;
    }
    // Where a table has to follow the header, no volume ends before it.
    if offset == HEADER_LEN {
        return sequence == 0;
    }
    true
}

// Answers the length of the longest accepted beginning of an accepted or torn volume, or why nothing is repaired.
pub fn repair(volume: &[u8]) -> Result<usize, Refusal>
    ensures { result ≡ repair_answer volume.now }
{
    match check(volume) {
        Ok(_) => Ok(volume.len()),
        Err(rejected) => {
            let refusal = rejected.refusal;
            let offset = rejected.offset;
            let sequence = number::read_u64(volume, SEQUENCE_AT);
            if is_torn(sequence, refusal.fault(), offset) {
                Ok(offset)
            } else {
                Err(refusal)
            }
        }
    }
}
