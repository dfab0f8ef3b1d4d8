// SHA-256 (FIPS 180-4) of bytes lent whole or in parts.
//
// Public calls: `sha256` of bytes in one call; `Digest::start`, `feed` and `finish` for bytes that come in parts, cut anywhere. All are
// total: a state is taken as it stands, also one that a caller makes up, and more bytes in all than a volume may have are refused.
// Callers: chain, digests, and whoever writes the header of a following volume.
#![tactic(auto)]

mod feeding;
mod finishing;

ghost use Rattle.std.specs.Prelude.{◌≡◌};
ghost use Rattle.sha256.specs.Feeding.{new, feed_answer, finish_answer, whole_answer};

use crate::feeding::too_many;
use fips180::Words;
use refusal::Fault;

// A digest under way: the hash value so far, how many bytes were fed, and the held bytes. As many of these are in use, from the first
// on, as the number's remainder by 64.
#[derive(Clone, Copy)]
pub struct Digest {
    pub words: Words,
    pub fed: u64,
    pub held: [u8; 64],
}

impl Digest {
    // A new state, with nothing fed.
    pub fn start() -> Digest
        ensures { result ≡ new }
    {
        Digest {
            words: compression::first_words(),
            fed: 0,
            held: [0u8; 64],
        }
    }

    // The state after a part. The state is passed by value: a caller whose part is refused has it as it was.
    pub fn feed(self, part: &[u8]) -> Result<Digest, Fault>
        ensures { result ≡ feed_answer self part.now }
    {
        if too_many(self.fed, part.len()) {
            return Err(Fault::TooLarge);
        }
        Ok(self.feed_bytes(part))
    }

    // The digest of what was fed.
    pub fn finish(self) -> Result<[u8; 32], Fault>
        ensures { result ≡ finish_answer self }
    {
        if too_many(self.fed, 0) {
            return Err(Fault::TooLarge);
        }
        Ok(self.digest())
    }
}

// The digest of bytes in one call.
pub fn sha256(bytes: &[u8]) -> Result<[u8; 32], Fault>
    ensures { result ≡ whole_answer bytes.now }
{
    Digest::start().feed(bytes)?.finish()
}
