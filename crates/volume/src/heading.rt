// The header: what reading it answers, the parts that it hands out, and writing it.
ghost use Rattle.std.specs.Prelude.{◌≡◌, ◌-◌, ◌≤◌, length};
ghost use Rattle.checks.specs.Checks.{first_fault};
ghost use Rattle.refusal.specs.Faults.{fault_number};
ghost use Rattle.volume.specs.Heading.{hash_wrong, field_order, header_fault, first_mark, header_answer};
ghost use Rattle.volume.specs.Heading.{field_answer, field_address};
ghost use Rattle.volume.specs.inner.Handed.{part_answer, part_address};
ghost use Rattle.volume.specs.Writing.{SizedHeader, write_fault, write_answer, write_buffer};

use crate::{Bookmark, HeaderRead};
use block::limits::{HEADER_LEN, VOLUME_LIMIT};
use crc32::Tables;
use refusal::{Fault, Refusal};

// The lengths of a file system ID and of a hash.
const ID_LEN: usize = 16;

const HASH_LEN: usize = 32;

// Whether the volume is volume 0 and has a previous hash.
fn hash_wrong(sequence: u64, previous: &[u8]) -> bool
    ensures { result ≡ hash_wrong sequence previous.now }
{
    if sequence == 0 {
        return !number::same_bytes(previous, &[0u8; 32]);
    }
    false
}

// The first fault among the fields of a header that is whole.
fn field_fault(tables: Option<&Tables>, volume: &[u8]) -> Result<(), Fault>
    requires in_bounds { 80 ≤ length volume.now }
    ensures { fault_number result ≡ first_fault (field_order volume.now) }
{
    if !number::same_bytes(&volume[0..17], b"\xD3HDRFS\r\n\x1A\n\x00HDRFS\x00") {
        return Err(Fault::MagicWrong);
    }
    if number::read_u8(volume, 17) != 0 {
        return Err(Fault::VersionUnknown);
    }
    if number::read_u8(volume, 34) != 0 {
        return Err(Fault::VersionUnknown);
    }
    if number::read_u8(volume, 35) != 0 {
        return Err(Fault::VersionUnknown);
    }
    if block::sum_wrong(tables, volume, 0, 76) {
        return Err(Fault::ChecksumWrong);
    }
    if hash_wrong(number::read_u64(volume, 36), &volume[44..76]) {
        return Err(Fault::HashNotZero);
    }
    Ok(())
}

// Internal: the first fault of a volume's header.
pub fn header_fault(tables: Option<&Tables>, volume: &[u8]) -> Result<(), Fault>
    ensures { fault_number result ≡ header_fault volume.now }
{
    if VOLUME_LIMIT < volume.len() {
        return Err(Fault::TooLarge);
    }
    if volume.len() < HEADER_LEN {
        return Err(Fault::CutShort);
    }
    field_fault(tables, volume)
}

// The bookmark after a header.
pub(crate) fn first_mark(sequence: u64) -> Bookmark
    ensures { result ≡ first_mark sequence }
{
    Bookmark {
        offset: HEADER_LEN,
        due: 0 < sequence,
        last: None,
        number: 0,
    }
}

// Reads the header: the sequence number and the bookmark after it, or the refusal.
pub fn read_header(volume: &[u8]) -> Result<HeaderRead, Refusal>
    ensures { result ≡ header_answer volume.now }
{
    read_header_by(None, volume)
}

// Internal: the same with lent tables, for a walk that goes on to the blocks.
pub fn read_header_by(tables: Option<&Tables>, volume: &[u8]) -> Result<HeaderRead, Refusal>
    ensures { result ≡ header_answer volume.now }
{
    header_fault(tables, volume)?;
    let sequence = number::read_u64(volume, 36);
    let next = first_mark(sequence);
    Ok(HeaderRead { sequence, next })
}

// A part of a sound header, as a part of the volume; empty where the header is refused.
fn handed_out(volume: &[u8], from: usize, to: usize) -> &[u8]
    requires { (from ≤ to) × (to ≤ 80) }
    ensures bytes { result.now ≡ part_answer volume.now from (to - from) }
    ensures address { result.ref_ptr ≡ part_address volume.now volume.entry.ref_ptr from }
{
    match header_fault(None, volume) {
        Ok(()) => &volume[from..to],
        Err(_) => &volume[0..0],
    }
}

// The file system ID, as a part of the volume; empty where the header is refused.
pub fn file_system_id(volume: &[u8]) -> &[u8]
    ensures bytes { result.now ≡ field_answer "file system ID" volume.now }
    ensures address { result.ref_ptr ≡ field_address "file system ID" volume.now volume.entry.ref_ptr }
{
    handed_out(volume, 18, 34)
}

// The hash of the previous volume, as a part of the volume; empty where the header is refused.
pub fn previous_hash(volume: &[u8]) -> &[u8]
    ensures bytes { result.now ≡ field_answer "previous hash" volume.now }
    ensures address { result.ref_ptr ≡ field_address "previous hash" volume.now volume.entry.ref_ptr }
{
    handed_out(volume, 44, 76)
}

// The first fault of a header to write. The arguments are sized, refused or not.
fn write_fault(room: usize, id: &[u8], sequence: u64, previous: &[u8]) -> Result<(), Fault>
    ensures fault { fault_number result ≡ write_fault room
        (record { id = id.entry.now; sequence = sequence; previous = previous.now }) }
    ensures sized { SizedHeader
        (record { id = id.entry.now; sequence = sequence; previous = previous.now }) }
{
    if id.len() != ID_LEN {
        return Err(Fault::RuleBroken);
    }
    if previous.len() != HASH_LEN {
        return Err(Fault::RuleBroken);
    }
    if hash_wrong(sequence, previous) {
        return Err(Fault::HashNotZero);
    }
    if room < HEADER_LEN {
        return Err(Fault::RoomTooSmall);
    }
    Ok(())
}

// Writes a header at the beginning of the buffer: the bookmark after it, or the refusal, which leaves the buffer as it was.
// The arguments are sized, refused or not.
pub fn write_header(
    buf: &mut [u8],
    id: &[u8],
    sequence: u64,
    previous: &[u8],
) -> Result<Bookmark, Refusal>
    ensures answer { result ≡ write_answer (length buf.old)
        (record { id = id.entry.now; sequence = sequence; previous = previous.now }) }
    ensures buffer { buf.new ≡ write_buffer buf.old
        (record { id = id.entry.now; sequence = sequence; previous = previous.now }) }
    ensures sized { SizedHeader
        (record { id = id.entry.now; sequence = sequence; previous = previous.now }) }
{
    write_fault(buf.len(), id, sequence, previous)?;
    encode::write_header(buf, id, sequence, previous);
    Ok(first_mark(sequence))
}
