// Images written into a lent buffer: the header's, and that of a block of any kind.
//
// Calls: write_header, write_block. Crate `volume` calls them after all its checks, so each requires that its image fits the buffer
// and that each length fits its field. Every byte outside the image stays as it was. There is a writer for each layout, since each
// has fields of its own.
#![tactic(auto)]

ghost use Rattle.std.specs.Prelude.{◌≡◌, [], ◌∷◌, ◌++◌, ◌+◌, ◌≤◌, ◌<◌, length};
ghost use Rattle.number.specs.Number.{le_bytes, part, put};
ghost use Rattle.crc32.specs.Crc.{crc};
ghost use Rattle.format.specs.Layout.{laid, sealed};
ghost use Rattle.format.specs.Blocks.{link_block, widths, image};
ghost use Rattle.format.specs.Headers.{header_fields, header_image};
ghost use Rattle.format.specs.Asked.{asked};
ghost use Rattle.format.specs.declared.new_block.NewBlock.TheVariants.{Inode as NewInode, Xattr as NewXattr, RemovedXattr as NewRemovedXattr};
ghost use Rattle.format.specs.declared.new_block.NewBlock.TheVariants.{Data as NewData, Rename as NewRename, Table as NewTable};
ghost use Rattle.encode.specs.inner.Lengths.{LengthsFit};

use format::kind::Kind;
use format::new_block::{Data, Inode, Link, NewBlock, RemovedXattr, Rename, Table, Xattr};

// Internal: writes a header at the beginning of the buffer.
pub fn write_header(buf: &mut [u8], id: &[u8], sequence: u64, previous: &[u8])
    requires id_len { length id.now ≡ 16 }
    requires previous_len { length previous.now ≡ 32 }
    requires in_bounds { 80 ≤ length buf.old }
    ensures { buf.new ≡ put buf.old 0
        (header_image (record { id = id.entry.now; sequence = sequence; previous = previous.now })) }
{
    write_header_fields(buf, id, sequence, previous);
    seal(buf, 0, 76);
}

// Writes the fields of a header; its version and both of its algorithms are 0.
fn write_header_fields(buf: &mut [u8], id: &[u8], sequence: u64, previous: &[u8])
    requires id_len { length id.now ≡ 16 }
    requires previous_len { length previous.now ≡ 32 }
    requires in_bounds { 76 ≤ length buf.old }
    ensures { buf.new ≡ put buf.old 0
        (header_fields (record { id = id.entry.now; sequence = sequence; previous = previous.now })) }
{
    number::write_bytes(buf, 0, b"\xd3HDRFS\r\n\x1a\n\x00HDRFS\x00");
    number::write_u8(buf, 17, 0);
    number::write_bytes(buf, 18, id);
    number::write_u8(buf, 34, 0);
    number::write_u8(buf, 35, 0);
    number::write_u64(buf, 36, sequence);
    number::write_bytes(buf, 44, previous);
}

// Internal: writes a block. Inlined, so that a kind that is known is not asked for.
#[inline(always)]
pub fn write_block(buf: &mut [u8], offset: usize, block: NewBlock<'_>)
    requires in_bounds { offset + length (image (asked block)) ≤ length buf.old }
    requires lengths_fit { LengthsFit (asked block) }
    ensures { buf.new ≡ put buf.old offset (image (asked block.entry)) }
{
    match block {
        NewBlock::Inode(b) => write_inode(buf, offset, b),
        NewBlock::Link(b) => write_link(buf, offset, Kind::Link as u8, b),
        NewBlock::Unlink(b) => write_link(buf, offset, Kind::Unlink as u8, b),
        NewBlock::Xattr(b) => write_xattr(buf, offset, b),
        NewBlock::RemovedXattr(b) => write_removed_xattr(buf, offset, b),
        NewBlock::Data(b) => write_data(buf, offset, b),
        NewBlock::Rename(b) => write_rename(buf, offset, b),
        NewBlock::Table(b) => write_table(buf, offset, b),
    }
}

fn write_inode(buf: &mut [u8], offset: usize, b: Inode<'_>)
    requires { offset + 75 + length b.rest.now ≤ length buf.old }
    ensures { buf.new ≡ put buf.old offset (image (asked (NewInode b.entry))) }
{
    number::write_u8(buf, offset, Kind::Inode as u8);
    number::write_u64(buf, offset + 1, b.inode);
    number::write_u64(buf, offset + 9, b.time);
    number::write_u16(buf, offset + 17, b.mode);
    number::write_u16(buf, offset + 19, b.uid);
    number::write_u16(buf, offset + 21, b.gid);
    write_inode_tail(buf, offset + 23, b);
    seal(buf, offset, 71 + b.rest.len());
}

// Writes the fields of an inode block from the access time on, and the bytes after them.
fn write_inode_tail(buf: &mut [u8], at: usize, b: Inode<'_>)
    requires { at + 48 + length b.rest.now ≤ length buf.old }
    ensures { buf.new ≡ put buf.old at
        (laid (8 ∷ 8 ∷ 8 ∷ 8 ∷ 8 ∷ 8 ∷ []) (b.entry.atime ∷ b.entry.mtime ∷ b.entry.ctime ∷ b.entry.btime ∷ b.entry.size ∷ length b.entry.rest.now ∷ [])
        ++ b.entry.rest.now) }
{
    number::write_u64(buf, at, b.atime);
    number::write_u64(buf, at + 8, b.mtime);
    number::write_u64(buf, at + 16, b.ctime);
    number::write_u64(buf, at + 24, b.btime);
    number::write_u64(buf, at + 32, b.size);
    number::write_u64(buf, at + 40, b.rest.len() as u64);
    number::write_bytes(buf, at + 48, b.rest);
}

// Writes a link or an unlink: they have one layout and differ in the ID.
fn write_link(buf: &mut [u8], offset: usize, id: u8, b: Link<'_>)
    requires name_in_bounds { offset + 31 + length b.name.now ≤ length buf.old }
    requires name_len_bound { length b.name.now < 65536 }
    ensures { buf.new ≡ put buf.old offset
        (sealed (id ∷ laid (widths link_block) (b.entry.time ∷ b.entry.child ∷ b.entry.parent ∷ length b.entry.name.now ∷ []) ++ b.entry.name.now)) }
{
    number::write_u8(buf, offset, id);
    number::write_u64(buf, offset + 1, b.time);
    number::write_u64(buf, offset + 9, b.child);
    number::write_u64(buf, offset + 17, b.parent);
    number::write_u16(buf, offset + 25, b.name.len() as u16);
    number::write_bytes(buf, offset + 27, b.name);
    seal(buf, offset, 27 + b.name.len());
}

fn write_xattr(buf: &mut [u8], offset: usize, b: Xattr<'_>)
    requires value_in_bounds { offset + 24 + length b.name.now + length b.value.now ≤ length buf.old }
    requires name_len_bound { length b.name.now < 256 }
    requires value_len_bound { length b.value.now < 65536 }
    ensures { buf.new ≡ put buf.old offset (image (asked (NewXattr b.entry))) }
{
    number::write_u8(buf, offset, Kind::Xattr as u8);
    number::write_u64(buf, offset + 1, b.time);
    number::write_u64(buf, offset + 9, b.inode);
    number::write_u8(buf, offset + 17, b.name.len() as u8);
    number::write_u16(buf, offset + 18, b.value.len() as u16);
    write_two(buf, offset + 20, b.name, b.value);
    seal(buf, offset, 20 + b.name.len() + b.value.len());
}

fn write_removed_xattr(buf: &mut [u8], offset: usize, b: RemovedXattr<'_>)
    requires name_in_bounds { offset + 22 + length b.name.now ≤ length buf.old }
    requires name_len_bound { length b.name.now < 256 }
    ensures { buf.new ≡ put buf.old offset (image (asked (NewRemovedXattr b.entry))) }
{
    number::write_u8(buf, offset, Kind::RemovedXattr as u8);
    number::write_u64(buf, offset + 1, b.time);
    number::write_u64(buf, offset + 9, b.inode);
    number::write_u8(buf, offset + 17, b.name.len() as u8);
    number::write_bytes(buf, offset + 18, b.name);
    seal(buf, offset, 18 + b.name.len());
}

fn write_data(buf: &mut [u8], offset: usize, b: Data<'_>)
    requires { offset + 21 + length b.payload.now ≤ length buf.old }
    ensures { buf.new ≡ put buf.old offset (image (asked (NewData b.entry))) }
{
    number::write_u8(buf, offset, Kind::Data as u8);
    number::write_u64(buf, offset + 1, b.time);
    number::write_u64(buf, offset + 9, b.payload.len() as u64);
    number::write_bytes(buf, offset + 17, b.payload);
    seal(buf, offset, 17 + b.payload.len());
}

fn write_rename(buf: &mut [u8], offset: usize, b: Rename<'_>)
    requires in_bounds { offset + 17 + length b.old.now + length b.new.now ≤ length buf.old }
    requires old_len_bound { length b.old.now < 65536 }
    requires new_len_bound { length b.new.now < 65536 }
    ensures { buf.new ≡ put buf.old offset (image (asked (NewRename b.entry))) }
{
    number::write_u8(buf, offset, Kind::Rename as u8);
    number::write_u64(buf, offset + 1, b.time);
    number::write_u16(buf, offset + 9, b.old.len() as u16);
    number::write_u16(buf, offset + 11, b.new.len() as u16);
    write_two(buf, offset + 13, b.old, b.new);
    seal(buf, offset, 13 + b.old.len() + b.new.len());
}

fn write_table(buf: &mut [u8], offset: usize, b: Table<'_>)
    requires { offset + 13 + length b.links.now ≤ length buf.old }
    ensures { buf.new ≡ put buf.old offset (image (asked (NewTable b.entry))) }
{
    number::write_u8(buf, offset, Kind::Table as u8);
    number::write_u64(buf, offset + 1, b.count);
    number::write_bytes(buf, offset + 9, b.links);
    seal(buf, offset, 9 + b.links.len());
}

// Copies two parts, the second right after the first.
fn write_two(buf: &mut [u8], at: usize, first: &[u8], second: &[u8])
    requires { at + length first.now + length second.now ≤ length buf.old }
    ensures { buf.new ≡ put buf.old at (first.now ++ second.now) }
{
    number::write_bytes(buf, at, first);
    number::write_bytes(buf, at + first.len(), second);
}

// Writes the CRC of the bytes that it covers, `covered` bytes from `offset` on, right after them.
fn seal(buf: &mut [u8], offset: usize, covered: usize)
    requires { offset + covered + 4 ≤ length buf.old }
    ensures { buf.new ≡ put buf.old (offset + covered)
        (le_bytes 4 (crc (part buf.old offset covered))) }
{
    let end = offset + covered;
    let sum = crc32::crc32(&buf[offset..end]);
    number::write_u32(buf, end, sum);
}
