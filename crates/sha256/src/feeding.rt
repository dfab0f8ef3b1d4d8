// Feeding bytes: up to the end of a block that was begun, then whole blocks straight from the part, then what is left.
ghost use Rattle.std.specs.Prelude.{◌≡◌, ◌+◌, ◌-◌, ◌%◌, ◌≤◌, ◌<◌, length, slice_index_or};
ghost use mathlib.Core.List.{foldl};
ghost use Rattle.number.specs.Number.{put};
ghost use Rattle.sha256.specs.Feeding.{feed_byte, too_many};

use crate::Digest;
use compression::hash_blocks;
use std::slice::from_ref;

// How many bytes may be fed in all: as many as a volume may have.
const LIMIT: u64 = 16_777_216;

// How many bytes a block has.
const BLOCK: usize = 64;

// Whether so many bytes more are too many. A sum that does not fit is above the limit, and so is the number that stands for it.
pub(crate) fn too_many(fed: u64, more: usize) -> bool
    ensures { result ≡ too_many (fed + more) }
{
    LIMIT < fed.saturating_add(more as u64)
}

// The held bytes with a part laid over them.
fn laid(held: [u8; 64], at: usize, part: &[u8]) -> [u8; 64]
    requires { at + length part.now ≤ 64 }
    ensures { result ≡ put held at part.now }
{
    let mut next = held;
    next[at..at + part.len()].copy_from_slice(part);
    next
}

// The last of some blocks, or the held bytes where there is none.
fn last_or(blocks: &[[u8; 64]], held: [u8; 64]) -> [u8; 64]
    ensures { result ≡ slice_index_or blocks.now (length blocks.now - 1) held }
{
    blocks.last().copied().unwrap_or(held)
}

// That the part keeps to the limit is asked of each function that feeds: it joins a state and a part, and no one value has both.
impl Digest {
    // How many of the held bytes are in use.
    pub(crate) fn used(&self) -> usize
        ensures { result ≡ self.now.fed % 64 }
    {
        (self.fed % 64) as usize
    }

    // Feeds bytes that do not fill the block.
    fn feed_few(self, part: &[u8]) -> Digest
        requires { (self.fed + length part.now ≤ 16777216) × (self.fed % 64 + length part.now < 64) }
        ensures { result ≡ foldl feed_byte self part.now }
    {
        Digest {
            words: self.words,
            fed: self.fed + part.len() as u64,
            held: laid(self.held, self.used(), part),
        }
    }

    // Feeds the bytes that fill the block.
    fn feed_to_end(self, part: &[u8]) -> Digest
        requires { (self.fed + length part.now ≤ 16777216) × ((0 < length part.now) × (self.fed % 64 + length part.now ≡ 64)) }
        ensures { result ≡ foldl feed_byte self part.now }
    {
        let held = laid(self.held, self.used(), part);
        Digest {
            words: hash_blocks(self.words, from_ref(&held)),
            fed: self.fed + part.len() as u64,
            held,
        }
    }

    // Feeds bytes where no block was begun. The last whole block is held afterwards, as if its bytes had been fed one by one.
    fn feed_aligned(self, part: &[u8]) -> Digest
        requires { (self.fed + length part.now ≤ 16777216) × (self.fed % 64 ≡ 0) }
        ensures { result ≡ foldl feed_byte self part.now }
    {
        let (whole, rest) = part.as_chunks::<BLOCK>();
        Digest {
            words: hash_blocks(self.words, whole),
            fed: self.fed + part.len() as u64,
            held: laid(last_or(whole, self.held), 0, rest),
        }
    }

    // Feeds a part that is not too long.
    pub(crate) fn feed_bytes(self, part: &[u8]) -> Digest
        requires { self.fed + length part.now ≤ 16777216 }
        ensures { result ≡ foldl feed_byte self part.now }
    {
        let used = self.used();
        if part.len() < BLOCK - used {
            return self.feed_few(part);
        }
        if used == 0 {
            return self.feed_aligned(part);
        }
        let (begin, rest) = part.split_at(BLOCK - used);
        self.feed_to_end(begin).feed_aligned(rest)
    }
}
