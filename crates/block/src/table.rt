// Link tables: ID 1, link count 8, the links, CRC 4.
ghost use Rattle.std.specs.Prelude.{◌≡◌, ◌+◌, ◌≤◌, ◌<◌, ◌++◌, length, drop};
ghost use Rattle.format.specs.Blocks.{link_table};
ghost use Rattle.checks.specs.Checks.{first_fault};
ghost use Rattle.refusal.specs.Faults.{fault_number};
ghost use Rattle.block.specs.Order.{volume_limit, kind_order};
ghost use Rattle.block.specs.inner.Decoded.{block_of};
ghost use Rattle.block.specs.Fields.{body_end, field_at};
ghost use Rattle.links.specs.Links.{link_start};
ghost use Rattle.block.specs.inner.Parts.{sealed_order, links_order};

use crate::limits::MAX_LINKS;
use crate::seal::sealed_fault;
use crate::{Block, Part, TableBlock};
use crc32::Tables;
use refusal::Fault;

// How many bytes the links from `from` on take.
fn len_of_links(volume: &[u8], from: usize, count: u64) -> usize
    requires { (from ≤ length volume.now) × (count ≤ 4096) }
    ensures { result ≡ link_start (drop from volume.now) count }
{
    links::links_len(&volume[from..], count)
}

// The first fault of `count` links that lie within the bytes.
fn links_fault(list: &[u8], count: u64) -> Result<(), Fault>
    requires { (count ≤ 4096) × (link_start list.now count ≤ length list.now) × (length list.now ≤ volume_limit) }
    ensures { fault_number result ≡ first_fault (links_order list.now count) }
{
    if links::some_name_not_text(list, count) {
        return Err(Fault::NotText);
    }
    if links::some_link_twice(list, count) {
        return Err(Fault::LinkTwice);
    }
    Ok(())
}

// The first fault in the end of the table at `offset`, whose links begin at `from`, and then in these links.
fn end_fault(
    tables: Option<&Tables>,
    volume: &[u8],
    offset: usize,
    from: usize,
    count: u64,
) -> Result<(), Fault>
    requires offset_le_from { (offset ≤ from) × (from ≤ length volume.now) × (length volume.now ≤ volume_limit) × (count ≤ 4096) }
    ensures { fault_number result ≡ first_fault (
        sealed_order volume.now offset (from + link_start (drop from volume.now) count)
        ++ links_order (drop from volume.now) count) }
{
    let len = len_of_links(volume, from, count);
    sealed_fault(tables, volume, offset, from, len as u64)?;
    links_fault(&volume[from..], count)
}

// The first fault of the link table at `offset`.
pub(crate) fn table_fault(
    tables: Option<&Tables>,
    volume: &[u8],
    offset: usize,
) -> Result<(), Fault>
    requires offset_in_bounds { (offset < length volume.now) × (length volume.now ≤ volume_limit) }
    ensures { fault_number result ≡ first_fault (kind_order link_table volume.now offset) }
{
    let from = offset + 9;
    if volume.len() < from {
        return Err(Fault::CutShort);
    }
    let count = number::read_u64(volume, offset + 1);
    if MAX_LINKS < count {
        return Err(Fault::OverLimit);
    }
    end_fault(tables, volume, offset, from, count)
}

// The link table at `offset`.
pub(crate) fn decode_table(volume: &[u8], offset: usize) -> Block
    requires { (body_end link_table volume.now offset + 4 ≤ length volume.now) × (field_at link_table "link count" volume.now offset ≤ 4096) }
    ensures { result ≡ block_of link_table volume.now offset }
{
    let from = offset + 9;
    let count = number::read_u64(volume, offset + 1);
    let len = len_of_links(volume, from, count);
    let table = TableBlock {
        count,
        links: Part { offset: from, len },
    };
    Block::Table(table)
}

// The offset after the link table at `offset`.
pub(crate) fn table_end(volume: &[u8], offset: usize) -> usize
    requires { (body_end link_table volume.now offset + 4 ≤ length volume.now) × (field_at link_table "link count" volume.now offset ≤ 4096) }
    ensures { result ≡ body_end link_table volume.now offset + 4 }
{
    let from = offset + 9;
    let count = number::read_u64(volume, offset + 1);
    from + len_of_links(volume, from, count) + 4
}
