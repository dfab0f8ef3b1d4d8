// The digest of a state: what is held and in use is padded and hashed.
ghost use Rattle.std.specs.Prelude.{◌≡◌, ◌+◌, ◌%◌, ◌<◌, take};
ghost use mathlib.Core.List.{◌++◌, foldl};
ghost use Rattle.fips180.specs.Padding.{padding, zero_bytes, blocks};
ghost use Rattle.fips180.specs.Hash.{hashed, word_bytes};
ghost use Rattle.sha256.specs.Feeding.{digest_of};

use crate::Digest;
use compression::hash_blocks;
use fips180::Words;

// How long the bytes in use are with their padding: one block or two.
fn padded_len(used: usize) -> usize
    requires { used < 64 }
    ensures { result ≡ used + (9 + zero_bytes used) }
{
    if used < 56 { 64 } else { 128 }
}

// The bytes of a hash value.
fn bytes_of(words: Words) -> [u8; 32]
    ensures { result ≡ word_bytes words }
{
    let words = [
        words.a, words.b, words.c, words.d, words.e, words.f, words.g, words.h,
    ];
    let mut digest = [0u8; 32];
    for (i, word) in words.iter().enumerate() {
        digest[4 * i..4 * i + 4].copy_from_slice(&word.to_be_bytes());
    }
    digest
}

impl Digest {
    // The held bytes in use and their padding, with zeros after it where it ends in the first block.
    fn padded(&self) -> [u8; 128]
        ensures { take (self.now.fed % 64 + (9 + zero_bytes (self.now.fed % 64))) result
            ≡ take (self.now.fed % 64) self.now.held ++ padding self.now.fed }
    {
        let used = self.used();
        let end = padded_len(used);
        let mut last = [0u8; 128];
        last[..used].copy_from_slice(&self.held[..used]);
        last[used] = 0x80;
        // The length in bits, of which the padding has the lowest 64.
        last[end - 8..end].copy_from_slice(&self.fed.wrapping_mul(8).to_be_bytes());
        last
    }

    // The words after the last block or two.
    fn last_words(&self) -> Words
        ensures { result ≡ foldl hashed self.now.words (blocks (take (self.now.fed % 64) self.now.held ++ padding self.now.fed)) }
    {
        let last = self.padded();
        let (last_blocks, _) = last[..padded_len(self.used())].as_chunks::<64>();
        hash_blocks(self.words, last_blocks)
    }

    // The digest of a state.
    pub(crate) fn digest(&self) -> [u8; 32]
        ensures { result ≡ digest_of self.now }
    {
        bytes_of(self.last_words())
    }
}
