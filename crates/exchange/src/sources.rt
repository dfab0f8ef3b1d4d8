// Which of two volumes has the bytes that are fetched.
ghost use Rattle.std.specs.Prelude.{◌≡◌};
ghost use Rattle.exchange.specs.Sources.{source_of};

use crate::SourceNumbers;
use format::Physical;
use lookup::bytes::fetch_refusal;

// Which of two volumes has `len` bytes at `offset` of the volume with this sequence number.
#[tactic(auto, unfolding(crate::specs::Sources::source_of))]
#[unsafe(no_mangle)]
pub extern "C" fn hdrfs_fetch(
    first: &[u8],
    second: &[u8],
    number: u64,
    offset: u64,
    len: u64,
) -> SourceNumbers
    ensures { result ≡ source_of first.now second.now number offset len }
{
    // No text is looked at in fetching, so no refusal here has anything to say of one.
    match fetch_refusal(first, second, number, Physical(offset), len) {
        Ok(()) => SourceNumbers {
            which: (number::read_u64(first, 36) != number).into(),
            ..Default::default()
        },
        Err(fault) => SourceNumbers {
            refusal: fault.into(),
            ..Default::default()
        },
    }
}
