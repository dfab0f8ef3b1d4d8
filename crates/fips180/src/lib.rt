// SHA-256 as FIPS 180-4 defines it: definitions in the standard's order and with its names, what its constants are, and published
// digests. No code but the type of eight words.
// Cited by compression, sha256, chain and claims.
#![tactic(auto)]

// Eight words: a hash value, whose words FIPS 180-4 numbers from 0 to 7, or the working variables a to h.
#[derive(Clone, Copy)]
pub struct Words {
    pub a: u32,
    pub b: u32,
    pub c: u32,
    pub d: u32,
    pub e: u32,
    pub f: u32,
    pub g: u32,
    pub h: u32,
}
