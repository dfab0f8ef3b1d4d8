// Little-endian numbers in byte slices, and bytes copied into a lent buffer.
//
// Public calls: read_u8 to read_u64, write_u8 to write_u64, write_bytes, same_bytes. All are total: a read past the end
// takes missing bytes as 0, and a write that would run past the end changes nothing. `part_of` is total too, and internal.
// Every crate that reads or writes a field of a volume calls them.
#![tactic(auto)]

ghost use Rattle.std.specs.Prelude.{◌≡◌, ◌-◌, ◌≤◌, length, IfSome};
ghost use Rattle.number.specs.Number.{le, le_bytes, part, number_at, put};
ghost use Rattle.number.specs.inner.Same.{same_bytes};

// The number of one byte at `at`.
#[tactic(auto, using(crate::proofs::Library::le_u8))]
pub fn read_u8(bytes: &[u8], at: usize) -> u8
    ensures { result ≡ number_at bytes.now at 1 }
{
    u8::from_le_bytes(array_at(bytes, at))
}

// The number of two bytes at `at`.
#[tactic(auto, using(crate::proofs::Library::le_u16))]
pub fn read_u16(bytes: &[u8], at: usize) -> u16
    ensures { result ≡ number_at bytes.now at 2 }
{
    u16::from_le_bytes(array_at(bytes, at))
}

// The number of four bytes at `at`.
#[tactic(auto, using(crate::proofs::Library::le_u32))]
pub fn read_u32(bytes: &[u8], at: usize) -> u32
    ensures { result ≡ number_at bytes.now at 4 }
{
    u32::from_le_bytes(array_at(bytes, at))
}

// The number of eight bytes at `at`.
#[tactic(auto, using(crate::proofs::Library::le_u64))]
pub fn read_u64(bytes: &[u8], at: usize) -> u64
    ensures { result ≡ number_at bytes.now at 8 }
{
    u64::from_le_bytes(array_at(bytes, at))
}

// Writes one byte at `at`.
#[tactic(auto, using(crate::proofs::Library::le_bytes_library))]
pub fn write_u8(buf: &mut [u8], at: usize, value: u8)
    ensures { buf.new ≡ put buf.old at (le_bytes 1 value) }
{
    write_bytes(buf, at, &u8::to_le_bytes(value));
}

// Writes two bytes at `at`.
#[tactic(auto, using(crate::proofs::Library::le_bytes_library))]
pub fn write_u16(buf: &mut [u8], at: usize, value: u16)
    ensures { buf.new ≡ put buf.old at (le_bytes 2 value) }
{
    write_bytes(buf, at, &u16::to_le_bytes(value));
}

// Writes four bytes at `at`.
#[tactic(auto, using(crate::proofs::Library::le_bytes_library))]
pub fn write_u32(buf: &mut [u8], at: usize, value: u32)
    ensures { buf.new ≡ put buf.old at (le_bytes 4 value) }
{
    write_bytes(buf, at, &u32::to_le_bytes(value));
}

// Writes eight bytes at `at`.
#[tactic(auto, using(crate::proofs::Library::le_bytes_library))]
pub fn write_u64(buf: &mut [u8], at: usize, value: u64)
    ensures { buf.new ≡ put buf.old at (le_bytes 8 value) }
{
    write_bytes(buf, at, &u64::to_le_bytes(value));
}

// Copies `bytes` into the buffer from `at` on. Not by get_mut: the end might not fit a usize, so it would have to be tested all the same.
#[tactic(auto, using(crate::proofs::Put::put_past))]
pub fn write_bytes(buf: &mut [u8], at: usize, bytes: &[u8])
    ensures { buf.new ≡ put buf.old at bytes.now }
{
    if at <= buf.len() && bytes.len() <= buf.len() - at {
        copy(buf, at, bytes);
    }
}

// Copies the bytes, for which there is room. Byte by byte: copy_from_slice is a call of memmove, which takes longer than to store a few
// bytes, and which a program that links the library would have to bring along.
fn copy(buf: &mut [u8], at: usize, bytes: &[u8])
    requires { (at ≤ length buf.old) × (length bytes.now ≤ length buf.old - at) }
    ensures { buf.new ≡ put buf.old at bytes.now }
{
    for (i, byte) in bytes.iter().enumerate() {
        buf[at + i] = *byte;
    }
}

// Whether two slices hold the same bytes. Callers take it in place of `==`: of its answer the proofs know the definition, while of `==`
// each would have to be brought to it.
#[tactic(auto, using(crate::proofs::Same::same_pointwise))]
pub fn same_bytes(a: &[u8], b: &[u8]) -> bool
    ensures { result ≡ same_bytes a.now b.now }
{
    a == b
}

// Internal: the part of `len` bytes from `from` on, or what there is of it where the bytes end before it does.
pub fn part_of(bytes: &[u8], from: usize, len: usize) -> &[u8]
    ensures { result.now ≡ part bytes.now from len }
{
    let rest = &bytes[from.min(bytes.len())..];
    &rest[..len.min(rest.len())]
}

// The N bytes at `at`, as an array; a byte past the end is 0.
fn array_at<const N: usize>(bytes: &[u8], at: usize) -> [u8; N]
    ensures { le result ≡ number_at bytes.now at N }
{
    match whole_at(bytes, at) {
        Some(whole) => *whole,
        None => padded(part_of(bytes, at, N)),
    }
}

// The N bytes at `at`, where all of them are there. With the rare case apart, a field is one load.
fn whole_at<const N: usize>(bytes: &[u8], at: usize) -> Option<&[u8; N]>
    ensures { IfSome result (λ whole. whole.now ≡ part bytes.now at N) }
{
    bytes.get(at..at.checked_add(N)?)?.first_chunk()
}

// The bytes, filled up with zeros.
#[tactic(auto, using(crate::proofs::Library::le_filled))]
fn padded<const N: usize>(bytes: &[u8]) -> [u8; N]
    requires { length bytes.now ≤ N }
    ensures { le result ≡ le bytes.now }
{
    let mut array = [0; N];
    array[..bytes.len()].copy_from_slice(bytes);
    array
}
