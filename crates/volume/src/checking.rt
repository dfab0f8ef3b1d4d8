// The whole-volume check: the header, and then block after block until the end or a refusal.
ghost use Rattle.std.specs.Prelude.{◌≡◌};
ghost use Rattle.volume.specs.inner.Check.{check_from, check_answer};

use crate::heading::read_header_by;
use crate::reading::{is_end, next_mark, read_fault};
use crate::{Accepted, Bookmark, Rejected};
use block::lending::FILL_FROM;
use crc32::Tables;
use texts::refusal_at;

// The check from a bookmark on. It needs no block, only where the next one begins, so it decodes none.
fn check_from(
    tables: Option<&Tables>,
    volume: &[u8],
    sequence: u64,
    first: Bookmark,
) -> Result<Accepted, Rejected>
    ensures { result ≡ check_from volume.now sequence first }
{
    let mut mark = first;
    while !is_end(volume, mark) {
        if let Err(fault) = read_fault(tables, volume, mark) {
            return Err(Rejected {
                refusal: refusal_at(volume, mark.offset, fault),
                offset: mark.offset,
                blocks: mark.number,
            });
        }
        mark = next_mark(volume, mark);
    }
    Ok(Accepted {
        sequence,
        end: mark,
    })
}

// The check of a whole volume with lent tables.
fn check_by(tables: Option<&Tables>, volume: &[u8]) -> Result<Accepted, Rejected>
    ensures { result ≡ check_answer volume.now }
{
    match read_header_by(tables, volume) {
        Ok(header) => check_from(tables, volume, header.sequence, header.next),
        Err(refusal) => Err(Rejected {
            refusal,
            offset: 0,
            blocks: 0,
        }),
    }
}

// The check of a whole volume with tables filled for it. They stand in a function of their own: a check that fills none
// shall not clear them either.
fn check_filled(volume: &[u8]) -> Result<Accepted, Rejected>
    ensures { result ≡ check_answer volume.now }
{
    check_by(Some(&Tables::new()), volume)
}

// Checks a whole volume: accepted, with its end bookmark, or refused, and where.
pub fn check(volume: &[u8]) -> Result<Accepted, Rejected>
    ensures { result ≡ check_answer volume.now }
{
    if volume.len() < FILL_FROM {
        return check_by(None, volume);
    }
    check_filled(volume)
}
