// The compression function of SHA-256: the hash value after blocks.
//
// Internal: `first_words`, the hash value before the first block, and `hash_blocks`, the one after blocks.
// No public call. Caller: sha256.
//
// The room for the message schedule is made once for each call and lent to all its blocks.
#![tactic(auto)]

mod functions;
mod rounds;
mod schedule;

ghost use Rattle.std.specs.Prelude.{◌≡◌};
ghost use mathlib.Core.List.{foldl};
ghost use Rattle.fips180.specs.Constants.{H0};
ghost use Rattle.fips180.specs.Hash.{added, hashed};

use crate::rounds::all_rounds;
use crate::schedule::load_words;
use fips180::Words;

// Internal: the hash value before the first block.
pub fn first_words() -> Words
    ensures { result ≡ H0 }
{
    Words {
        a: 0x6a09e667,
        b: 0xbb67ae85,
        c: 0x3c6ef372,
        d: 0xa54ff53a,
        e: 0x510e527f,
        f: 0x9b05688c,
        g: 0x1f83d9ab,
        h: 0x5be0cd19,
    }
}

// The words of two hash values added one by one.
fn add_words(v: Words, words: Words) -> Words
    ensures { result ≡ added v words }
{
    Words {
        a: v.a.wrapping_add(words.a),
        b: v.b.wrapping_add(words.b),
        c: v.c.wrapping_add(words.c),
        d: v.d.wrapping_add(words.d),
        e: v.e.wrapping_add(words.e),
        f: v.f.wrapping_add(words.f),
        g: v.g.wrapping_add(words.g),
        h: v.h.wrapping_add(words.h),
    }
}

// The hash value after a block, with room for the message schedule.
fn hash_block(schedule: &mut [u32; 64], words: Words, block: &[u8; 64]) -> Words
    ensures { result ≡ hashed words block.now }
{
    load_words(schedule, block);
    add_words(all_rounds(schedule, words), words)
}

// Internal: the hash value after blocks.
pub fn hash_blocks(first: Words, blocks: &[[u8; 64]]) -> Words
    ensures { result ≡ foldl hashed first blocks.now }
{
    let mut schedule = [0u32; 64];
    let mut words = first;
    for block in blocks {
        words = hash_block(&mut schedule, words, block);
    }
    words
}
