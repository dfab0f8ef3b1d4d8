// Digests into lent bytes, for callers who keep no state of their own kind.
//
// Public calls: `whole`, the digest of bytes in one call; `start`, `feed` and `finish`, between which the state stands in bytes that the
// caller lends again to the next call. It is taken from them as it stands, also where the caller made it up. A call that is refused
// changes no byte.
// Caller: exchange.
#![tactic(auto)]

ghost use Rattle.std.specs.Prelude.{◌≡◌, ◌≤◌, ◌<◌, length, replicate, OnOk, MatchResult};
ghost use mathlib.Core.List.{foldl};
ghost use Rattle.number.specs.Number.{put};
ghost use Rattle.checks.specs.Checks.{first_fault};
ghost use Rattle.refusal.specs.Faults.{fault_number};
ghost use Rattle.refusal.specs.declared.Fault.TheVariants.{RoomTooSmall};
ghost use Rattle.format.specs.Layout.{laid};
ghost use Rattle.fips180.specs.Hash.{sha256};
ghost use Rattle.sha256.specs.Feeding.{new, feed_byte, digest_of};
ghost use Rattle.digests.specs.States.{SizedState, state_bytes, state_of, words_of, whole_order, start_order, feed_order, finish_order, laid_over};
ghost use Rattle.digests.specs.inner.Handed.{hand_order};

use fips180::Words;
use refusal::Fault;
use sha256::Digest;

// How many bytes a state has: eight words, the number of bytes fed, and the held bytes.
const STATE: usize = 104;

// How many bytes a digest has.
const DIGEST: usize = 32;

// Writes the digest of bytes in one call.
pub fn whole(bytes: &[u8], out: &mut [u8]) -> Result<(), Fault>
    ensures answer { fault_number result ≡ first_fault (whole_order bytes.now out.old) }
    ensures out { out.new ≡ laid_over (whole_order bytes.now out.old)
        (sha256 bytes.now) out.old }
{
    let digest = sha256::sha256(bytes)?;
    hand_out(&digest, out)
}

// Writes a new state.
pub fn start(state: &mut [u8]) -> Result<(), Fault>
    ensures answer { fault_number result ≡ first_fault (start_order state.old) }
    ensures state { state.new ≡ laid_over (start_order state.old) (state_bytes new) state.old }
{
    check_room(state, STATE)?;
    write_state(state, Digest::start());
    Ok(())
}

// Feeds a part. A state that is written is sized, so the next call reads it back as it is (proofs/Crossing.antt).
pub fn feed(state: &mut [u8], part: &[u8]) -> Result<(), Fault>
    ensures answer { fault_number result ≡ first_fault (feed_order state.old part.now) }
    ensures state { state.new ≡ laid_over (feed_order state.old part.now)
        (state_bytes (foldl feed_byte (state_of state.old) part.now)) state.old }
    ensures sized { OnOk result (SizedState (foldl feed_byte (state_of state.old) part.now)) }
{
    check_room(state, STATE)?;
    let next = read_state(state).feed(part)?;
    write_state(state, next);
    Ok(())
}

// Writes the digest of what was fed. The state stays as it is.
pub fn finish(state: &[u8], out: &mut [u8]) -> Result<(), Fault>
    ensures answer { fault_number result ≡ first_fault (finish_order state.now out.old) }
    ensures out { out.new ≡ laid_over (finish_order state.now out.old)
        (digest_of (state_of state.now)) out.old }
{
    check_room(state, STATE)?;
    let digest = read_state(state).finish()?;
    hand_out(&digest, out)
}

// Whether lent bytes are as many as are needed. They stay a slice: the contracts are about all that is lent, and an array of the first of
// them would be a part, of which each call would have to say so.
fn check_room(room: &[u8], needed: usize) -> Result<(), Fault>
    ensures { MatchResult result (λ _. needed ≤ length room.now) (λ fault. (fault ≡ RoomTooSmall) × (length room.now < needed)) }
{
    if room.len() < needed {
        return Err(Fault::RoomTooSmall);
    }
    Ok(())
}

// Writes a digest, where there is room for it.
fn hand_out(digest: &[u8; 32], out: &mut [u8]) -> Result<(), Fault>
    ensures answer { fault_number result ≡ first_fault (hand_order out.old) }
    ensures out { out.new ≡ laid_over (hand_order out.old) digest.now out.old }
{
    check_room(out, DIGEST)?;
    number::write_bytes(out, 0, digest);
    Ok(())
}

// The words at the beginning of the state's bytes. Field by field: an array of them would only be taken apart again. Inlined, so that
// no word is asked for the length of the bytes again.
#[inline(always)]
fn read_words(state: &[u8]) -> Words
    ensures { result ≡ words_of state.now }
{
    Words {
        a: number::read_u32(state, 0),
        b: number::read_u32(state, 4),
        c: number::read_u32(state, 8),
        d: number::read_u32(state, 12),
        e: number::read_u32(state, 16),
        f: number::read_u32(state, 20),
        g: number::read_u32(state, 24),
        h: number::read_u32(state, 28),
    }
}

// The state in the first of the lent bytes. Inlined: what is returned in memory is copied.
#[inline(always)]
fn read_state(state: &[u8]) -> Digest
    requires { 104 ≤ length state.now }
    ensures { result ≡ state_of state.now }
{
    let mut held = [0u8; 64];
    held.copy_from_slice(&state[40..STATE]);
    Digest {
        words: read_words(state),
        fed: number::read_u64(state, 32),
        held,
    }
}

// Writes eight words one after the other.
fn write_words(state: &mut [u8], words: &[u32; 8])
    requires { 32 ≤ length state.old }
    ensures { state.new ≡ put state.old 0 (laid (replicate 8 4) words.now) }
{
    for (i, word) in words.iter().enumerate() {
        number::write_u32(state, 4 * i, *word);
    }
}

// Writes a state over the first of the lent bytes.
fn write_state(state: &mut [u8], digest: Digest)
    requires { 104 ≤ length state.old }
    ensures state { state.new ≡ put state.old 0 (state_bytes digest) }
    ensures long { length digest.held ≡ 64 }
{
    let words = digest.words;
    write_words(
        state,
        &[
            words.a, words.b, words.c, words.d, words.e, words.f, words.g, words.h,
        ],
    );
    number::write_u64(state, 32, digest.fed);
    number::write_bytes(state, 40, &digest.held);
}
