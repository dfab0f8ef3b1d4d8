// The rounds of a block.
ghost use Rattle.std.specs.Prelude.{◌≡◌, ◌+◌, ◌≤◌, take};
ghost use Rattle.number.specs.Number.{part};
ghost use Rattle.fips180.specs.Constants.{K};
ghost use Rattle.fips180.specs.Hash.{extended, round, rounds};

use crate::functions::{big_sigma_0, big_sigma_1, ch, maj};
use crate::schedule::next_words;
use fips180::Words;

const CONSTANTS: [u32; 64] = [
    0x428a2f98, 0x71374491, 0xb5c0fbcf, 0xe9b5dba5, 0x3956c25b, 0x59f111f1, 0x923f82a4, 0xab1c5ed5,
    0xd807aa98, 0x12835b01, 0x243185be, 0x550c7dc3, 0x72be5d74, 0x80deb1fe, 0x9bdc06a7, 0xc19bf174,
    0xe49b69c1, 0xefbe4786, 0x0fc19dc6, 0x240ca1cc, 0x2de92c6f, 0x4a7484aa, 0x5cb0a9dc, 0x76f988da,
    0x983e5152, 0xa831c66d, 0xb00327c8, 0xbf597fc7, 0xc6e00bf3, 0xd5a79147, 0x06ca6351, 0x14292967,
    0x27b70a85, 0x2e1b2138, 0x4d2c6dfc, 0x53380d13, 0x650a7354, 0x766a0abb, 0x81c2c92e, 0x92722c85,
    0xa2bfe8a1, 0xa81a664b, 0xc24b8b70, 0xc76c51a3, 0xd192e819, 0xd6990624, 0xf40e3585, 0x106aa070,
    0x19a4c116, 0x1e376c08, 0x2748774c, 0x34b0bcb5, 0x391c0cb3, 0x4ed8aa4a, 0x5b9cca4f, 0x682e6ff3,
    0x748f82ee, 0x78a5636f, 0x84c87814, 0x8cc70208, 0x90befffa, 0xa4506ceb, 0xbef9a3f7, 0xc67178f2,
];

// One round.
fn one_round(v: Words, k: u32, w: u32) -> Words
    ensures { result ≡ round v k w }
{
    let t1 = v
        .h
        .wrapping_add(big_sigma_1(v.e))
        .wrapping_add(ch(v.e, v.f, v.g))
        .wrapping_add(k)
        .wrapping_add(w);
    let t2 = big_sigma_0(v.a).wrapping_add(maj(v.a, v.b, v.c));
    Words {
        a: t1.wrapping_add(t2),
        b: v.a,
        c: v.b,
        d: v.c,
        e: v.d.wrapping_add(t1),
        f: v.e,
        g: v.f,
        h: v.g,
    }
}

// Eight rounds, from round t on: after them each working variable is back in its place, and the compiler moves none.
fn eight_rounds(schedule: &[u32; 64], t: usize, first: Words) -> Words
    requires { t + 8 ≤ 64 }
    ensures { result ≡ rounds first (part K t 8) (part schedule.now t 8) }
{
    // By a reference: a constant that is indexed is copied first. And by the round's number: it names a word of either array.
    let constants = &CONSTANTS;
    let mut v = first;
    for i in t..t + 8 {
        v = one_round(v, constants[i], schedule[i]);
    }
    v
}

// All rounds. The words of the schedule are worked out just before the rounds that take them: as one is ready, others are still under
// way, so that the processor has more to do at a time.
pub(crate) fn all_rounds(schedule: &mut [u32; 64], first: Words) -> Words
    ensures { result ≡ rounds first K (extended 48 (take 16 schedule.old)) }
{
    let mut v = first;
    for turn in 0..8 {
        next_words(schedule, 8 * turn);
        v = eight_rounds(schedule, 8 * turn, v);
    }
    v
}
