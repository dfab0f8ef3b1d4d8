// SHA-256 of bytes that are lent whole, or in parts, with the state in lent bytes.
ghost use Rattle.std.specs.Prelude.{◌≡◌};
ghost use mathlib.Core.List.{foldl};
ghost use Rattle.checks.specs.Checks.{first_fault};
ghost use Rattle.fips180.specs.Hash.{sha256};
ghost use Rattle.sha256.specs.Feeding.{new, feed_byte, digest_of};
ghost use Rattle.digests.specs.States.{SizedState, state_bytes, state_of, whole_order, start_order, feed_order, finish_order, laid_over};

use crate::marks::fault_number;

// Writes the digest of bytes in one call.
#[unsafe(no_mangle)]
pub extern "C" fn hdrfs_sha256(bytes: &[u8], out: &mut [u8]) -> u64
    ensures answer { result ≡ first_fault (whole_order bytes.now out.old) }
    ensures out { out.new ≡ laid_over (whole_order bytes.now out.old)
        (sha256 bytes.now) out.old }
{
    fault_number(digests::whole(bytes, out))
}

// Writes a new state.
#[unsafe(no_mangle)]
pub extern "C" fn hdrfs_sha256_start(state: &mut [u8]) -> u64
    ensures answer { result ≡ first_fault (start_order state.old) }
    ensures state { state.new ≡ laid_over (start_order state.old) (state_bytes new) state.old }
{
    fault_number(digests::start(state))
}

// Feeds a part. A state that is written is sized, so the next call reads it back as it is (specs/Crossing.antt).
#[unsafe(no_mangle)]
pub extern "C" fn hdrfs_sha256_feed(state: &mut [u8], part: &[u8]) -> u64
    ensures answer { result ≡ first_fault (feed_order state.old part.now) }
    ensures state { state.new ≡ laid_over (feed_order state.old part.now)
        (state_bytes (foldl feed_byte (state_of state.old) part.now)) state.old }
    ensures sized { result ≡ 0 → SizedState (foldl feed_byte (state_of state.old) part.now) }
{
    fault_number(digests::feed(state, part))
}

// Writes the digest of what was fed. The state stays as it is.
#[unsafe(no_mangle)]
pub extern "C" fn hdrfs_sha256_finish(state: &[u8], out: &mut [u8]) -> u64
    ensures answer { result ≡ first_fault (finish_order state.now out.old) }
    ensures out { out.new ≡ laid_over (finish_order state.now out.old)
        (digest_of (state_of state.now)) out.old }
{
    fault_number(digests::finish(state, out))
}
