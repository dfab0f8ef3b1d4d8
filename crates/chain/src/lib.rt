// Whether a volume follows another: the check of a neighbouring pair of a set.
//
// Public calls: `pair`, and `refusal_of` for the refusal of its answer; `From` makes one of an error alone. Both volumes are checked
// whole before their headers are compared.
// Callers: exchange, for whoever keeps copies of sets and wants to know that no volume is missing or from another set.
#![tactic(auto)]

ghost use Rattle.std.specs.Prelude.{◌≡◌, suc, eqb, Err};
ghost use Rattle.volume.specs.Heading.{header_fault, sequence_of};
ghost use Rattle.chain.specs.Pairing.{follows, pair_answer, refusal_in, refusal_told};

use refusal::{Fault, Refusal};
use volume::Rejected;
use volume::checking::check;
use volume::heading::{file_system_id, previous_hash};

// Why a pair of volumes is refused. A volume that is refused comes with what the check of it alone tells.
#[derive(Clone, Copy, Debug)]
pub enum PairFault {
    FirstRefused(Rejected),
    SecondRefused(Rejected),
    DoesNotFollow,
}

// Whether `next` is one above `number`. Nothing is added to `number`: it may be the highest there is, which has none above it.
fn is_next(number: u64, next: u64) -> bool
    ensures { result ≡ eqb next (suc number) }
{
    if next == 0 {
        return false;
    }
    next - 1 == number
}

// Whether the second of two volumes with sound headers and these numbers follows the first. The digest takes the most work, so it
// comes last.
fn is_followed(first: &[u8], second: &[u8], number: u64, next: u64) -> bool
    requires first_value { (header_fault first.now ≡ 0) × (header_fault second.now ≡ 0) }
    requires number_value { (number ≡ sequence_of first.now) × (next ≡ sequence_of second.now) }
    ensures { result ≡ follows first.now second.now }
{
    if !number::same_bytes(file_system_id(second), file_system_id(first)) {
        return false;
    }
    if !is_next(number, next) {
        return false;
    }
    match sha256::sha256(first) {
        Ok(digest) => number::same_bytes(previous_hash(second), &digest),
        // A volume with a sound header is not too long for a digest.
        Err(_) => false,
    }
}

// Checks a pair of volumes: both are accepted and the second follows the first, or why not.
pub fn pair(first: &[u8], second: &[u8]) -> Result<(), PairFault>
    ensures { result ≡ pair_answer first.now second.now }
{
    match check(first) {
        Err(rejected) => Err(PairFault::FirstRefused(rejected)),
        Ok(earlier) => match check(second) {
            Err(rejected) => Err(PairFault::SecondRefused(rejected)),
            Ok(later) => {
                if is_followed(first, second, earlier.sequence, later.sequence) {
                    Ok(())
                } else {
                    Err(PairFault::DoesNotFollow)
                }
            }
        },
    }
}

// Why a pair is refused. Where the second volume follows the first nothing is, which stands for the number 0.
pub fn refusal_of(pairing: Result<(), PairFault>) -> Result<(), Refusal>
    ensures { refusal_told result ≡ refusal_in pairing }
{
    match pairing {
        Ok(()) => Ok(()),
        Err(fault) => Err(fault.into()),
    }
}

// A pair is refused as the volume at fault is, or since the second does not follow the first.
impl From<PairFault> for Refusal {
    ghost from_gives = { λ fault refusal. refusal ≡ refusal_in (Err fault) };

    fn from(fault: PairFault) -> Refusal {
        match fault {
            PairFault::FirstRefused(rejected) => rejected.refusal,
            PairFault::SecondRefused(rejected) => rejected.refusal,
            PairFault::DoesNotFollow => Fault::DoesNotFollow.into(),
        }
    }
}
