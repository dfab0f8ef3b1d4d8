// A block at an offset of a volume: its checks up to the time, its fields, and where its variable parts stand.
//
// There is no bookmark here: everything goes by the volume's bytes and plain numbers. Calls: `block_fault`, the first
// fault of a block; where there is none, `decode`, the block, and `end_at`, the offset after it; `sum_wrong`, the test of
// a checksum. `volume` calls them.
// Each kind of block has a file, with its checks, its decoding and its end: it has fields and sums of its own, so that none of these
// functions is another with a constant changed, but for links and unlinks, which share theirs. `request` calls the checks of an inode's n bytes,
// which are the same in writing. `limits` has the limits of a volume and of a table.
// `tables` is None, or the tables of crc32: filled once by a walk and lent to every block. `lending` has what lenders share.
// Tables, volume and offset are passed one by one: nothing holds of the three together, and decoding takes no tables.
#![tactic(auto)]

mod data;
pub mod inode;
pub mod lending;
pub mod limits;
mod link;
mod rename;
mod seal;
mod table;
mod text;
mod xattr;

ghost use Rattle.std.specs.Prelude.{◌≡◌, ◌+◌, ◌≤◌, ◌<◌, length};
ghost use Rattle.checks.specs.Checks.{first_fault};
ghost use Rattle.refusal.specs.Faults.{fault_number};
ghost use Rattle.format.specs.Blocks.{id_of};
ghost use Rattle.format.specs.Kinds.{kind_named};
ghost use Rattle.block.specs.Fields.{kind_at, body_end};
ghost use Rattle.block.specs.Order.{volume_limit, wrong_place, checksum_wrong, kind_order, block_order};
ghost use Rattle.block.specs.inner.Decoded.{block_at};

use crc32::Tables;
use format::kind::Kind;
use limits::{HEADER_LEN, VOLUME_LIMIT};
use refusal::Fault;

// A part of the volume: where it begins and how long it is.
#[derive(Clone, Copy, Debug, PartialEq, Eq)]
pub struct Part {
    pub offset: usize,
    pub len: usize,
}

// The fields of an inode block. The n bytes are a symbolic link's target or a regular file's list of extents.
#[derive(Clone, Copy, Debug, PartialEq, Eq)]
pub struct InodeBlock {
    pub number: u64,
    pub time: u64,
    pub mode: u16,
    pub uid: u16,
    pub gid: u16,
    pub atime: u64,
    pub mtime: u64,
    pub ctime: u64,
    pub btime: u64,
    pub size: u64,
    pub rest: Part,
}

// The fields of a link or an unlink block.
#[derive(Clone, Copy, Debug, PartialEq, Eq)]
pub struct LinkBlock {
    pub time: u64,
    pub child: u64,
    pub parent: u64,
    pub name: Part,
}

#[derive(Clone, Copy, Debug, PartialEq, Eq)]
pub struct XattrBlock {
    pub time: u64,
    pub number: u64,
    pub name: Part,
    pub value: Part,
}

#[derive(Clone, Copy, Debug, PartialEq, Eq)]
pub struct RemovedXattrBlock {
    pub time: u64,
    pub number: u64,
    pub name: Part,
}

#[derive(Clone, Copy, Debug, PartialEq, Eq)]
pub struct DataBlock {
    pub time: u64,
    pub payload: Part,
}

#[derive(Clone, Copy, Debug, PartialEq, Eq)]
pub struct RenameBlock {
    pub time: u64,
    pub old: Part,
    pub new: Part,
}

// The links stand one after the other in `links`.
#[derive(Clone, Copy, Debug, PartialEq, Eq)]
pub struct TableBlock {
    pub count: u64,
    pub links: Part,
}

// A block, with its fields and the places of its variable parts.
#[derive(Clone, Copy, Debug, PartialEq, Eq)]
pub enum Block {
    Inode(InodeBlock),
    Link(LinkBlock),
    Unlink(LinkBlock),
    Xattr(XattrBlock),
    RemovedXattr(RemovedXattrBlock),
    Data(DataBlock),
    Rename(RenameBlock),
    Table(TableBlock),
}

// Whether a table is due and this is another block, or this is a table and none is due.
fn is_out_of_place(due: bool, kind: Kind) -> bool
    ensures { result ≡ wrong_place due (id_of (kind_named kind)) }
{
    due != (kind == Kind::Table)
}

// The first fault of the block at `offset` by the checks of its kind.
fn kind_fault(
    tables: Option<&Tables>,
    volume: &[u8],
    offset: usize,
    kind: Kind,
) -> Result<(), Fault>
    requires offset_in_bounds { (offset < length volume.now) × (length volume.now ≤ volume_limit) }
    ensures { fault_number result ≡ first_fault (kind_order (kind_named kind) volume.now offset) }
{
    // Link and unlink stand apart: of one arm for both the proof knows only "either kind", which it would have to take apart again.
    match kind {
        Kind::Inode => inode::inode_fault(tables, volume, offset),
        Kind::Link => link::link_fault(tables, volume, offset),
        Kind::Unlink => link::link_fault(tables, volume, offset),
        Kind::Xattr => xattr::xattr_fault(tables, volume, offset),
        Kind::RemovedXattr => xattr::removed_xattr_fault(tables, volume, offset),
        Kind::Data => data::data_fault(tables, volume, offset),
        Kind::Rename => rename::rename_fault(tables, volume, offset),
        Kind::Table => table::table_fault(tables, volume, offset),
    }
}

// Internal: the first fault of the block at `offset`, up to the time. `due` says whether a table is due.
pub fn block_fault(
    tables: Option<&Tables>,
    volume: &[u8],
    offset: usize,
    due: bool,
) -> Result<(), Fault>
    ensures { fault_number result ≡ first_fault (block_order volume.now offset due) }
{
    if VOLUME_LIMIT < volume.len() {
        return Err(Fault::TooLarge);
    }
    if offset < HEADER_LEN {
        return Err(Fault::OutOfPlace);
    }
    if volume.len() <= offset {
        return Err(Fault::CutShort);
    }
    let Some(kind) = Kind::of(number::read_u8(volume, offset)) else {
        return Err(Fault::IdUnknown);
    };
    if is_out_of_place(due, kind) {
        return Err(Fault::OutOfPlace);
    }
    kind_fault(tables, volume, offset, kind)
}

// Internal: the kind of the block at `offset`. An ID that no kind has is taken for that of a table: such a block is refused before
// its kind matters.
pub fn kind_at(volume: &[u8], offset: usize) -> Kind
    ensures { kind_named result ≡ kind_at volume.now offset }
{
    Kind::of(number::read_u8(volume, offset)).unwrap_or(Kind::Table)
}

// Internal: the block at `offset`, where its kind's checks find no fault.
pub fn decode(volume: &[u8], offset: usize) -> Block
    requires { first_fault (kind_order (kind_at volume.now offset) volume.now offset) ≡ 0 }
    ensures { result ≡ block_at volume.now offset }
{
    match kind_at(volume, offset) {
        Kind::Inode => inode::decode_inode(volume, offset),
        Kind::Link => Block::Link(link::decode_link(volume, offset)),
        Kind::Unlink => Block::Unlink(link::decode_link(volume, offset)),
        Kind::Xattr => xattr::decode_xattr(volume, offset),
        Kind::RemovedXattr => xattr::decode_removed_xattr(volume, offset),
        Kind::Data => data::decode_data(volume, offset),
        Kind::Rename => rename::decode_rename(volume, offset),
        Kind::Table => table::decode_table(volume, offset),
    }
}

// Internal: the offset after the block at `offset`, where its kind's checks find no fault. It looks at the lengths alone, so a
// walk that needs no block decodes none.
// Each kind has a function of its own, which requires what bounds its sums; in one match every arm would have to show that anew.
pub fn end_at(volume: &[u8], offset: usize) -> usize
    requires { first_fault (kind_order (kind_at volume.now offset) volume.now offset) ≡ 0 }
    ensures { result ≡ body_end (kind_at volume.now offset) volume.now offset + 4 }
{
    // Link and unlink stand apart for the reason given in kind_fault.
    match kind_at(volume, offset) {
        Kind::Inode => inode::inode_end(volume, offset),
        Kind::Link => link::link_end(volume, offset),
        Kind::Unlink => link::link_end(volume, offset),
        Kind::Xattr => xattr::xattr_end(volume, offset),
        Kind::RemovedXattr => xattr::removed_xattr_end(volume, offset),
        Kind::Data => data::data_end(volume, offset),
        Kind::Rename => rename::rename_end(volume, offset),
        Kind::Table => table::table_end(volume, offset),
    }
}

// Internal: whether the four bytes at `end` are not the CRC of the bytes from `offset` to `end`.
pub fn sum_wrong(tables: Option<&Tables>, volume: &[u8], offset: usize, end: usize) -> bool
    requires offset_le_end { (offset ≤ end) × (end + 4 ≤ length volume.now) }
    ensures { result ≡ checksum_wrong volume.now offset end }
{
    number::read_u32(volume, end) != crc32::crc32_by(tables, &volume[offset..end])
}
