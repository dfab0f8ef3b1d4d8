// The check of a pair of volumes, as numbers.
ghost use Rattle.std.specs.Prelude.{◌≡◌};
ghost use Rattle.chain.specs.Pairing.{pair_answer};
ghost use Rattle.exchange.specs.Pairs.{fault_in, pair_numbers};

use crate::PairNumbers;
use chain::{PairFault, pair};
use refusal::Fault;
use volume::Rejected;

#[tactic(auto, unfolding(crate::specs::Pairs::pair_numbers))]
impl From<Result<(), PairFault>> for PairNumbers {
    ghost from_gives = { λ answer numbers. numbers ≡ pair_numbers answer };

    fn from(answer: Result<(), PairFault>) -> PairNumbers {
        match answer {
            Ok(()) => PairNumbers::default(),
            Err(PairFault::FirstRefused(rejected)) => fault_in(1, rejected),
            Err(PairFault::SecondRefused(rejected)) => fault_in(2, rejected),
            Err(PairFault::DoesNotFollow) => PairNumbers {
                refusal: Fault::DoesNotFollow.into(),
                ..Default::default()
            },
        }
    }
}

// Whether both volumes are accepted and the second follows the first.
#[unsafe(no_mangle)]
pub extern "C" fn hdrfs_pair(first: &[u8], second: &[u8]) -> PairNumbers
    ensures { result ≡ pair_numbers (pair_answer first.now second.now) }
{
    pair(first, second).into()
}

// A fault of one of the two volumes, and where it is.
fn fault_in(which: u64, rejected: Rejected) -> PairNumbers
    ensures { result ≡ fault_in which rejected }
{
    PairNumbers {
        refusal: rejected.refusal.fault().into(),
        text: rejected.refusal.text(),
        start: rejected.refusal.start(),
        which,
        offset: rejected.offset as u64,
    }
}
