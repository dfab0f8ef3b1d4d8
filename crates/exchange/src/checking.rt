// The check of a whole volume, as numbers.
ghost use Rattle.std.specs.Prelude.{◌≡◌};
ghost use Rattle.volume.specs.inner.Check.{check_answer};
ghost use Rattle.exchange.specs.Checking.{check_numbers};

use crate::CheckNumbers;
use crate::marks::{time_number, timed_number};
use volume::checking::check;
use volume::{Accepted, Rejected};

#[tactic(auto, unfolding(crate::specs::Checking::check_numbers))]
impl From<Result<Accepted, Rejected>> for CheckNumbers {
    ghost from_gives = { λ verdict numbers. numbers ≡ check_numbers verdict };

    fn from(verdict: Result<Accepted, Rejected>) -> CheckNumbers {
        match verdict {
            Ok(accepted) => CheckNumbers {
                sequence: accepted.sequence,
                blocks: accepted.end.number,
                offset: accepted.end.offset as u64,
                timed: timed_number(accepted.end.last),
                time: time_number(accepted.end.last),
                ..Default::default()
            },
            Err(rejected) => CheckNumbers {
                refusal: rejected.refusal.fault().into(),
                text: rejected.refusal.text(),
                start: rejected.refusal.start(),
                blocks: rejected.blocks,
                offset: rejected.offset as u64,
                ..Default::default()
            },
        }
    }
}

// All of the check in one pass.
#[unsafe(no_mangle)]
pub extern "C" fn hdrfs_check(volume: &[u8]) -> CheckNumbers
    ensures { result ≡ check_numbers (check_answer volume.now) }
{
    check(volume).into()
}

// The calls that follow answer one number of the check each: the C interface has them for callers that take one number at a time.

// 0 where the volume is accepted, else the refusal's number.
#[unsafe(no_mangle)]
pub extern "C" fn hdrfs_check_refusal(volume: &[u8]) -> u64
    ensures { result ≡ (check_numbers (check_answer volume.now)).refusal }
{
    hdrfs_check(volume).refusal
}

// Which text of the block at fault is bad; 0 where the refusal is not 10.
#[unsafe(no_mangle)]
pub extern "C" fn hdrfs_check_text(volume: &[u8]) -> u64
    ensures { result ≡ (check_numbers (check_answer volume.now)).text }
{
    hdrfs_check(volume).text
}

// Where in that text the first ill-formed sequence starts; 0 where the refusal is not 10.
#[unsafe(no_mangle)]
pub extern "C" fn hdrfs_check_start(volume: &[u8]) -> u64
    ensures { result ≡ (check_numbers (check_answer volume.now)).start }
{
    hdrfs_check(volume).start
}

// The sequence number; 0 where the volume is refused.
#[unsafe(no_mangle)]
pub extern "C" fn hdrfs_check_sequence(volume: &[u8]) -> u64
    ensures { result ≡ (check_numbers (check_answer volume.now)).sequence }
{
    hdrfs_check(volume).sequence
}

// How many blocks after the header were accepted.
#[unsafe(no_mangle)]
pub extern "C" fn hdrfs_check_blocks(volume: &[u8]) -> u64
    ensures { result ≡ (check_numbers (check_answer volume.now)).blocks }
{
    hdrfs_check(volume).blocks
}

// Where the volume ends, or where the header or block at fault begins.
#[unsafe(no_mangle)]
pub extern "C" fn hdrfs_check_offset(volume: &[u8]) -> u64
    ensures { result ≡ (check_numbers (check_answer volume.now)).offset }
{
    hdrfs_check(volume).offset
}

// 1 where the end bookmark has a last time.
#[unsafe(no_mangle)]
pub extern "C" fn hdrfs_check_timed(volume: &[u8]) -> u64
    ensures { result ≡ (check_numbers (check_answer volume.now)).timed }
{
    hdrfs_check(volume).timed
}

// That last time; 0 where there is none.
#[unsafe(no_mangle)]
pub extern "C" fn hdrfs_check_time(volume: &[u8]) -> u64
    ensures { result ≡ (check_numbers (check_answer volume.now)).time }
{
    hdrfs_check(volume).time
}
