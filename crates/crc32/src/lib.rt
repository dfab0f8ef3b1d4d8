// The checksum of headers and blocks: CRC-32 in the IEEE 802.3 form.
// Public call: `crc32`, the checksum of a slice of bytes. It is total, and its contract is one equation with `crc`
// of specs/Crc.antt, so that another way of computing it changes nothing for its callers.
// Internal: `crc32_by`, the same by tables that a walk over many blocks has `Tables::new` fill once and then lends.
// Callers: whatever reads or writes a header or a block.
//
// Few bytes go through the register one after the other, or sixteen at a time where tables are lent. Of many bytes 300 are
// left over by exclusive ors alone, which go through it in their place.
#![tactic(auto)]

ghost use Rattle.std.specs.Prelude.{◌≡◌};
ghost use mathlib.Core.List.{foldl};
ghost use Rattle.crc32.specs.Crc.{bit_step, byte_step, register, crc};
ghost use Rattle.crc32.specs.inner.Tables.{crc_row, crc_rows};

// The polynomial 0x04C11DB7 with its bits in the opposite order, since the low bit comes first.
const POLYNOMIAL: u32 = 0xEDB8_8320;

// The register before the first byte.
const START: u32 = 0xFFFF_FFFF;

// How many bytes are worth folding: below, what it saves is less than the 300 bytes that it leaves cost.
const MANY: usize = 352;

// The same where tables are lent, so that a byte costs less.
const MANY_BY_TABLES: usize = 720;

// The register after a zero bit of the message.
fn bit_step(register: u32) -> u32
    ensures { result ≡ bit_step register 0 }
{
    if register % 2 == 1 {
        (register / 2) ^ POLYNOMIAL
    } else {
        register / 2
    }
}

// The register after a byte. The byte is added to the register first, and then eight zero bits are taken: in this form
// the compiler replaces the loop by a look-up in a table that it makes itself.
fn byte_step(register: u32, byte: u8) -> u32
    ensures { result ≡ byte_step register byte }
{
    let mut next = register ^ (byte as u32);
    for _ in 0u32..8 {
        next = bit_step(next);
    }
    next
}

// The register after four bytes. They are added to it at once, so that a step waits for the register alone, and not for a
// byte to be added to it.
fn four_steps(register: u32, bytes: &[u8; 4]) -> u32
    ensures { result ≡ foldl byte_step register bytes.now }
{
    let added = register ^ u32::from_le_bytes(*bytes);
    byte_step(byte_step(byte_step(byte_step(added, 0), 0), 0), 0)
}

// The register after the bytes, four at a time as long as so many are left. Not one with `slicing::Rows::run`: steps as
// parameters would need contracts that are longer than either body.
fn wordwise(register: u32, bytes: &[u8]) -> u32
    ensures { result ≡ foldl byte_step register bytes.now }
{
    let (words, last) = bytes.as_chunks::<4>();
    let register = words
        .iter()
        .fold(register, |register, word| four_steps(register, word));
    last.iter()
        .fold(register, |register, byte| byte_step(register, *byte))
}

// The register after few bytes. The first is taken alone: in a block that was just written it is the ID, and the numbers after
// it are then read in parts of what was stored, for which the processor need not wait.
fn few_bytes(bytes: &[u8]) -> u32
    ensures { result ≡ register bytes.now }
{
    match bytes.split_first() {
        None => START,
        Some((first, others)) => wordwise(byte_step(START, *first), others),
    }
}

// The register after many bytes: that from zero after the 300 which folding leaves of them.
fn many_bytes(bytes: &[u8]) -> u32
    ensures { result ≡ register bytes.now }
{
    let mut left = [0u8; 300];
    folding::fold(bytes, &mut left);
    wordwise(0, &left)
}

// The checksum of the bytes.
pub fn crc32(bytes: &[u8]) -> u32
    ensures { result ≡ crc bytes.now }
{
    if bytes.len() < MANY {
        !few_bytes(bytes)
    } else {
        !many_bytes(bytes)
    }
}

// The first row: what each byte makes of a register of zero.
fn first_row() -> [u32; 256]
    ensures { result ≡ crc_row }
{
    std::array::from_fn(|byte| byte_step(0, byte as u8))
}

// Internal: the tables that a walk fills once and lends to all its checksums.
#[derive(Drop)]
pub struct Tables {
    rows: slicing::Rows,
    ghost filled: { rows.entries ≡ crc_rows },
}

impl Tables {
    // Internal: tables that are filled.
    pub fn new() -> Tables {
        Tables {
            rows: slicing::Rows::new(&first_row()),
        }
    }

    // The register after many bytes, as without tables but for the step. Not one function with that: each is its two lines and
    // one step, and the step as a parameter would need a contract longer than both.
    fn many_bytes(&self, bytes: &[u8]) -> u32
        ensures { result ≡ register bytes.now }
    {
        let mut left = [0u8; 300];
        folding::fold(bytes, &mut left);
        self.rows.run(0, &left)
    }

    // The checksum of the bytes, by the tables.
    fn crc32(&self, bytes: &[u8]) -> u32
        ensures { result ≡ crc bytes.now }
    {
        if bytes.len() < MANY_BY_TABLES {
            !self.rows.run(START, bytes)
        } else {
            !self.many_bytes(bytes)
        }
    }
}

// Internal: the checksum of the bytes, by tables or, where none are lent, without.
pub fn crc32_by(tables: Option<&Tables>, bytes: &[u8]) -> u32
    ensures { result ≡ crc bytes.now }
{
    match tables {
        None => crc32(bytes),
        Some(tables) => tables.crc32(bytes),
    }
}
