// The message schedule: the words of a block, and those that follow from them.
ghost use Rattle.std.specs.Prelude.{◌≡◌, List, map, ℕ, ◌+◌, ◌%◌, ◌≤◌, take};
ghost use Rattle.fips180.specs.Functions.{mod32, σ0, σ1};
ghost use Rattle.fips180.specs.Padding.{be, parts};
ghost use Rattle.fips180.specs.Hash.{extended};
ghost use Rattle.compression.specs.inner.HasWords.{HasWords};

use crate::functions::{small_sigma_0, small_sigma_1};

// The first sixteen words of the message schedule: the block's own.
pub(crate) fn load_words(schedule: &mut [u32; 64], block: &[u8; 64])
    ensures { take 16 schedule.new ≡ map be (parts 4 16 block.now) }
{
    let (words, _) = block.as_chunks::<4>();
    // By an index, as the other words are written too: the definitions are of words by their numbers.
    for (t, bytes) in words.iter().enumerate() {
        schedule[t] = u32::from_be_bytes(*bytes);
    }
}

// The next word of a message schedule, by the words 2, 7, 15 and 16 before it.
fn next_word(two: u32, seven: u32, fifteen: u32, sixteen: u32) -> u32
    ensures { result ≡ mod32 (σ1 two + seven + σ0 fifteen + sixteen) }
{
    small_sigma_1(two)
        .wrapping_add(seven)
        .wrapping_add(small_sigma_0(fifteen))
        .wrapping_add(sixteen)
}

// Eight more words of the message schedule, from word t on.
fn extend(schedule: &mut [u32; 64], t: usize)
    requires { (16 ≤ t) × (t + 8 ≤ 64) }
    ensures { take (t + 8) schedule.new ≡ extended 8 (take t schedule.old) }
{
    // By an index: the words read and written are parts of one array, which no iterator lends twice.
    for i in t..t + 8 {
        schedule[i] = next_word(
            schedule[i - 2],
            schedule[i - 7],
            schedule[i - 15],
            schedule[i - 16],
        );
    }
}

// The words for eight rounds from round t on; the first sixteen are the block's own.
pub(crate) fn next_words(schedule: &mut [u32; 64], t: usize)
    requires { (t % 8 ≡ 0) × (t + 8 ≤ 64) }
    ensures { (first : List ℕ) → HasWords first t schedule.old → HasWords first (t + 8) schedule.new }
{
    if 16 <= t {
        extend(schedule, t);
    }
}
