// A checksum's register over many bytes, sixteen at a time, by sixteen rows of entries: slicing by 16.
//
// It knows no polynomial: the caller gives the first row, `fill_rows` makes the fifteen others from it, `Rows::new` the whole
// of them, and `run` takes bytes by them. A value of the type is lent, since an array of constants would be built anew at every
// use. The calls are internal: `new` requires a linear row (specs/inner/Slicing.antt), and `fill_rows` takes any. They are meant
// for the crate crc32.
#![tactic(auto)]

ghost use Rattle.std.specs.Prelude.{◌≡◌, ◌≤◌, ◌<◌, length, get_or};
ghost use mathlib.Core.List.{foldl};
ghost use Rattle.slicing.specs.inner.Slicing.{step, zeros, rows_from, first_row, Linear, Rows};

// Sixteen rows of 256 entries: a linear one, and the fifteen that follow from it. The entries are public for contracts to name.
#[derive(Drop)]
pub struct Rows {
    pub entries: [u32; 4096],
    ghost filled: { Rows entries },
}

impl Rows {
    // Internal: the rows of a first one.
    pub fn new(row: &[u32; 256]) -> Rows
        requires { Linear row.now }
        ensures { first_row result.entries ≡ row.now }
    {
        let mut entries = [0u32; 4096];
        entries[..256].copy_from_slice(row);
        fill_rows(&mut entries);
        Rows { entries }
    }

    // Internal: the register after the bytes. Sixteen are taken at a time as long as so many are left, and then four.
    pub fn run(&self, register: u32, bytes: &[u8]) -> u32
        ensures { result ≡ foldl (step (first_row self.now.entries)) register bytes.now }
    {
        let (blocks, left) = bytes.as_chunks::<16>();
        let (words, last) = left.as_chunks::<4>();
        let current = blocks
            .iter()
            .fold(register, |current, block| self.block(current, block));
        let current = words
            .iter()
            .fold(current, |current, word| self.word(0, current, word));
        last.iter().fold(
            current,
            |current, byte| byte_step(&self.entries, current, *byte),
        )
    }

    // The register after sixteen bytes. The first four use the register up, so the others are taken from a register of
    // zero.
    fn block(&self, register: u32, bytes: &[u8; 16]) -> u32
        ensures { result ≡ foldl (step (first_row self.now.entries)) register bytes.now }
    {
        let (words, _) = bytes.as_chunks::<4>();
        self.word(0, 0, &words[3])
            ^ self.word(4, 0, &words[2])
            ^ self.word(8, 0, &words[1])
            ^ self.word(12, register, &words[0])
    }

    // The register after four bytes and a number of zero bytes. Each byte of the message meets one byte of the register.
    fn word(&self, after: usize, register: u32, bytes: &[u8; 4]) -> u32
        requires { after ≤ 12 }
        ensures { result
            ≡ zeros (step (first_row self.now.entries)) after (foldl (step (first_row self.now.entries)) register bytes.now) }
    {
        let [first, second, third, fourth] = register.to_le_bytes();
        self.look(after, fourth ^ bytes[3])
            ^ self.look(after + 1, third ^ bytes[2])
            ^ self.look(after + 2, second ^ bytes[1])
            ^ self.look(after + 3, first ^ bytes[0])
    }

    // What a byte and a number of zero bytes after it make of a register of zero.
    fn look(&self, after: usize, byte: u8) -> u32
        requires { after < 16 }
        ensures { result
            ≡ zeros (step (first_row self.now.entries)) after (get_or (first_row self.now.entries) byte 0) }
    {
        self.entries[after * 256 + byte as usize]
    }
}

// Internal: fills the fifteen rows after the first. An entry has one zero byte more after it than the entry that stands a
// row before it, so it is a step away from that one.
pub fn fill_rows(rows: &mut [u32])
    requires { length rows.old ≡ 4096 }
    ensures { rows.new ≡ rows_from (first_row rows.old) }
{
    // By an index: the entries read and written are parts of one slice, which no iterator lends twice.
    for i in 256usize..4096 {
        rows[i] = byte_step(rows, rows[i - 256], 0);
    }
}

// The register after a byte, by the first row.
fn byte_step(rows: &[u32], register: u32, byte: u8) -> u32
    requires { 256 ≤ length rows.now }
    ensures { result ≡ step (first_row rows.now) register byte }
{
    (register / 256) ^ rows[((register ^ byte as u32) % 256) as usize]
}
