// What stands at the positions of a file, and its runs, as numbers.
ghost use Rattle.std.specs.Prelude.{◌≡◌, length};
ghost use Rattle.lookup.specs.inner.Answers.{position_answer, runs_answer, runs_room};
ghost use Rattle.exchange.specs.Places.{place_numbers, run_count_numbers};

use crate::{PlaceNumbers, RunCountNumbers};
use format::Logical;
use lookup::{Position, query};
use refusal::Refusal;

// The kinds of what stands at a position.
const STORED: u64 = 1;

const PAST_END: u64 = 2;

#[tactic(auto, unfolding(crate::specs::Places::place_numbers))]
impl From<Result<Position, Refusal>> for PlaceNumbers {
    ghost from_gives = { λ answer numbers. numbers ≡ place_numbers answer };

    fn from(answer: Result<Position, Refusal>) -> PlaceNumbers {
        match answer {
            Ok(Position::Hole) => PlaceNumbers::default(),
            Ok(Position::PastEnd) => PlaceNumbers {
                kind: PAST_END,
                ..Default::default()
            },
            Ok(Position::Stored(stored)) => PlaceNumbers {
                kind: STORED,
                volume: stored.volume,
                offset: stored.offset.0,
                ..Default::default()
            },
            Err(refusal) => PlaceNumbers {
                refusal: refusal.fault().into(),
                text: refusal.text(),
                start: refusal.start(),
                ..Default::default()
            },
        }
    }
}

#[tactic(auto, unfolding(crate::specs::Places::run_count_numbers))]
impl From<Result<u64, Refusal>> for RunCountNumbers {
    ghost from_gives = { λ answer numbers. numbers ≡ run_count_numbers answer };

    fn from(answer: Result<u64, Refusal>) -> RunCountNumbers {
        match answer {
            Ok(count) => RunCountNumbers {
                count,
                ..Default::default()
            },
            Err(refusal) => RunCountNumbers {
                refusal: refusal.fault().into(),
                text: refusal.text(),
                start: refusal.start(),
                ..Default::default()
            },
        }
    }
}

// What stands at a position of the file whose inode block is at `offset`, in one call.
#[unsafe(no_mangle)]
pub extern "C" fn hdrfs_lookup(
    volume: &[u8],
    offset: u64,
    lengths: &[u8],
    position: u64,
) -> PlaceNumbers
    ensures { result ≡ place_numbers (position_answer volume.now offset lengths.now position) }
{
    query::position(volume, offset as usize, lengths, Logical(position)).into()
}

// The calls from here to hdrfs_lookup_offset answer one number of the lookup each: the C interface has them for callers that take one
// number at a time.

// 0 where the lookup is not refused, else the refusal's number.
#[unsafe(no_mangle)]
pub extern "C" fn hdrfs_lookup_refusal(
    volume: &[u8],
    offset: u64,
    lengths: &[u8],
    position: u64,
) -> u64
    ensures { result ≡ (place_numbers (position_answer volume.now offset lengths.now position)).refusal }
{
    hdrfs_lookup(volume, offset, lengths, position).refusal
}

// Which text of the block is bad; 0 where the refusal is not 10.
#[unsafe(no_mangle)]
pub extern "C" fn hdrfs_lookup_text(
    volume: &[u8],
    offset: u64,
    lengths: &[u8],
    position: u64,
) -> u64
    ensures { result ≡ (place_numbers (position_answer volume.now offset lengths.now position)).text }
{
    hdrfs_lookup(volume, offset, lengths, position).text
}

// Where in that text the first ill-formed sequence starts; 0 where the refusal is not 10.
#[unsafe(no_mangle)]
pub extern "C" fn hdrfs_lookup_start(
    volume: &[u8],
    offset: u64,
    lengths: &[u8],
    position: u64,
) -> u64
    ensures { result ≡ (place_numbers (position_answer volume.now offset lengths.now position)).start }
{
    hdrfs_lookup(volume, offset, lengths, position).start
}

// 0 for a hole, 1 for a stored byte, 2 past the end; 0 where the lookup is refused.
#[unsafe(no_mangle)]
pub extern "C" fn hdrfs_lookup_kind(
    volume: &[u8],
    offset: u64,
    lengths: &[u8],
    position: u64,
) -> u64
    ensures { result ≡ (place_numbers (position_answer volume.now offset lengths.now position)).kind }
{
    hdrfs_lookup(volume, offset, lengths, position).kind
}

// The sequence number of the volume that has the byte; 0 where no byte is stored.
#[unsafe(no_mangle)]
pub extern "C" fn hdrfs_lookup_volume(
    volume: &[u8],
    offset: u64,
    lengths: &[u8],
    position: u64,
) -> u64
    ensures { result ≡ (place_numbers (position_answer volume.now offset lengths.now position)).volume }
{
    hdrfs_lookup(volume, offset, lengths, position).volume
}

// Where the byte stands in that volume; 0 where no byte is stored.
#[unsafe(no_mangle)]
pub extern "C" fn hdrfs_lookup_offset(
    volume: &[u8],
    offset: u64,
    lengths: &[u8],
    position: u64,
) -> u64
    ensures { result ≡ (place_numbers (position_answer volume.now offset lengths.now position)).offset }
{
    hdrfs_lookup(volume, offset, lengths, position).offset
}

// The runs from `from` to below `to`, stored in `out`, five numbers each; the answer says how many there are.
#[unsafe(no_mangle)]
pub extern "C" fn hdrfs_runs(
    volume: &[u8],
    offset: u64,
    lengths: &[u8],
    from: u64,
    to: u64,
    out: &mut [u64],
) -> RunCountNumbers
    ensures answer { result ≡ run_count_numbers (runs_answer volume.now offset lengths.now from to
        (length out.old)) }
    ensures room { out.new ≡ runs_room volume.now offset lengths.now from to
        out.old }
{
    query::runs(
        volume,
        offset as usize,
        lengths,
        Logical(from),
        Logical(to),
        out,
    )
    .into()
}
