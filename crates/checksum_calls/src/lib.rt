// The checksum alone, for tests and measurements from outside. It is no part of the library's boundary, so all is internal.
//
// Calls: `checksum_alone`; `checksum_lent`, which lends tables filled for the call; `checksum_of_parts`, which fills them once
// for many checksums, as a walk over blocks does.
#![tactic(auto)]

ghost use Rattle.std.specs.Prelude.{◌≡◌, ◌/◌, length};
ghost use Rattle.crc32.specs.Crc.{crc};
ghost use Rattle.checksum_calls.specs.Parts.{sum_of_parts};

// Internal: the checksum of the bytes.
#[unsafe(no_mangle)]
pub extern "C" fn checksum_alone(bytes: &[u8]) -> u32
    ensures { result ≡ crc bytes.now }
{
    crc32::crc32(bytes)
}

// Internal: the same by tables.
#[unsafe(no_mangle)]
pub extern "C" fn checksum_lent(bytes: &[u8]) -> u32
    ensures { result ≡ crc bytes.now }
{
    crc32::crc32_by(Some(&crc32::Tables::new()), bytes)
}

// Internal: the checksums of the whole parts of a size, added (exclusive or), with tables filled once. What is left after
// the last whole part is not counted; parts of size 0 are none.
#[unsafe(no_mangle)]
pub extern "C" fn checksum_of_parts(bytes: &[u8], size: usize) -> u32
    ensures { result ≡ sum_of_parts bytes.now size (length bytes.now / size) }
{
    if size == 0 {
        return 0;
    }
    let tables = crc32::Tables::new();
    bytes
        .chunks_exact(size)
        .fold(0, |sum, part| sum ^ crc32::crc32_by(Some(&tables), part))
}
