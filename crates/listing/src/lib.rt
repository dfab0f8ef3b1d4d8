// The listing of a volume, as text in a lent buffer: a heading, a line for each block that is accepted, and a last line
// that says how it ended.
//
// Public call: list. A volume of more than 65,536 bytes is listed as refused; a room that is too small stays as it was.
// The program hdrfs_list calls it.
// `tables` are those of crc32: filled once and lent to both walks, for the header and every block. A short volume is listed without.
#![tactic(auto)]

mod text;

ghost use Rattle.std.specs.Prelude.{◌≡◌, ◌+◌, ◌≤◌, length};
ghost use Rattle.number.specs.Number.{put};
ghost use Rattle.listing.specs.Listing.{list_limit, list_answer};
ghost use Rattle.listing.specs.inner.Text.{lines_from, listing};
ghost use Rattle.listing.specs.inner.Writing.{Wrote};

use block::lending::FILL_FROM;
use crc32::Tables;
use refusal::{Fault, Refusal};
use volume::Bookmark;
use volume::heading::read_header_by;

// The most bytes that a volume to list may have.
const LIST_LIMIT: usize = 65536;

// Writes the lines of the blocks from a bookmark on, and the last line.
fn put_lines(
    tables: Option<&Tables>,
    volume: &[u8],
    first: Bookmark,
    out: &mut [u8],
    at: usize,
) -> usize
    requires first_bound { at + length (lines_from volume.now first) ≤ list_limit }
    ensures { Wrote out.old at (lines_from volume.now first) out.new result }
{
    let mut mark = first;
    let mut place = at;
    loop {
        let offset = mark.offset;
        match mark.read_by(tables, volume) {
            Ok(Some(found)) => {
                let next = found.next;
                let id = number::read_u8(volume, offset);
                let len = next.offset - offset;
                place = text::block_line(out, place, offset as u64, id as u64, len as u64);
                mark = next;
            }
            Ok(None) => {
                return text::end_line(out, place, offset as u64, mark.number);
            }
            Err(why) => {
                return text::refused_line(out, place, u64::from(why.fault()), offset as u64);
            }
        }
    }
}

// Writes the whole text to the start of the room.
fn put_listing(tables: Option<&Tables>, volume: &[u8], out: &mut [u8]) -> usize
    ensures { Wrote out.old 0 (listing volume.now) out.new result }
{
    let at = text::put_word(out, 0, b"offset id length\n");
    if LIST_LIMIT < volume.len() {
        return text::refused_line(out, at, u64::from(Fault::TooLarge), 0);
    }
    match read_header_by(tables, volume) {
        Ok(header) => put_lines(tables, volume, header.next, out, at),
        Err(why) => text::refused_line(out, at, u64::from(why.fault()), 0),
    }
}

// The listing of a volume with lent tables.
fn list_by(tables: Option<&Tables>, volume: &[u8], out: &mut [u8]) -> Result<usize, Refusal>
    ensures answer { result ≡ list_answer (length out.old) (listing volume.now) }
    ensures room { out.new ≡ put out.old 0 (listing volume.now) }
{
    // The same walk without room writes nothing: it measures the text.
    let len = put_listing(tables, volume, &mut out[0..0]);
    if out.len() < len {
        return Err(Refusal::from(Fault::RoomTooSmall));
    }
    put_listing(tables, volume, out);
    Ok(len)
}

// The listing of a volume with tables filled for it. They stand in a function of their own: a listing that fills none
// shall not clear them either.
fn list_filled(volume: &[u8], out: &mut [u8]) -> Result<usize, Refusal>
    ensures answer { result ≡ list_answer (length out.old) (listing volume.now) }
    ensures room { out.new ≡ put out.old 0 (listing volume.now) }
{
    list_by(Some(&Tables::new()), volume, out)
}

// Writes the listing of a volume to the start of the room and answers its length, or refuses a room that is too small.
pub fn list(volume: &[u8], out: &mut [u8]) -> Result<usize, Refusal>
    ensures answer { result ≡ list_answer (length out.old) (listing volume.now) }
    ensures room { out.new ≡ put out.old 0 (listing volume.now) }
{
    if volume.len() < FILL_FROM {
        return list_by(None, volume, out);
    }
    list_filled(volume, out)
}
