// The repair of a volume whose end is cut off, as numbers.
ghost use Rattle.std.specs.Prelude.{◌≡◌};
ghost use Rattle.repair.specs.Repairing.{repair_answer};
ghost use Rattle.exchange.specs.Repairs.{repair_numbers};

use crate::RepairNumbers;
use refusal::Refusal;
use repair::repair;

#[tactic(auto, unfolding(crate::specs::Repairs::repair_numbers))]
impl From<Result<usize, Refusal>> for RepairNumbers {
    ghost from_gives = { λ answer numbers. numbers ≡ repair_numbers answer };

    fn from(answer: Result<usize, Refusal>) -> RepairNumbers {
        match answer {
            Ok(length) => RepairNumbers {
                length: length as u64,
                ..Default::default()
            },
            Err(refusal) => RepairNumbers {
                refusal: refusal.fault().into(),
                text: refusal.text(),
                start: refusal.start(),
                ..Default::default()
            },
        }
    }
}

// How long the longest beginning of the volume is that is accepted, where the volume is accepted or torn.
#[unsafe(no_mangle)]
pub extern "C" fn hdrfs_repair(volume: &[u8]) -> RepairNumbers
    ensures { result ≡ repair_numbers (repair_answer volume.now) }
{
    repair(volume).into()
}
