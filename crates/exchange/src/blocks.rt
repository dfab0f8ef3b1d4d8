// A block as numbers, a function for each kind, since each has other fields. Each begins with the numbers that every kind has and stores
// its own.
ghost use Rattle.std.specs.Prelude.{◌≡◌, cond, []};
ghost use lib.Text.{eqt};
ghost use Rattle.format.specs.Blocks.{id_of};
ghost use Rattle.format.specs.Kinds.{kind_named};
ghost use Rattle.block.specs.declared.Block.TheVariants.{Inode, Link, Unlink, Xattr, RemovedXattr, Data, Rename, Table};
ghost use Rattle.refusal.specs.Refusal.{refusal_of};
ghost use Rattle.exchange.specs.Blocks.{numbers_with, found_numbers};

use crate::BlockNumbers;
use crate::marks::{time_number, timed_number};
use block::{
    Block, DataBlock, InodeBlock, LinkBlock, RemovedXattrBlock, RenameBlock, TableBlock, XattrBlock,
};
use format::kind::Kind;
use volume::Bookmark;

// The numbers that an answer begins with: those that every kind of block has, and 0 for those that only some have. The
// block's own number is stored last, by whoever has read the block.
fn begun(kind: Kind, time: u64, next: Bookmark) -> BlockNumbers
    ensures { result ≡ numbers_with (refusal_of 0) 0 (id_of (kind_named kind)) 0 next (λ name. cond (eqt name "time") time 0) [] }
{
    BlockNumbers {
        id: kind as u64,
        next: next.offset as u64,
        due: next.due.into(),
        timed: timed_number(next.last),
        last: time_number(next.last),
        nextnumber: next.number,
        time,
        ..Default::default()
    }
}

#[tactic(auto, unfolding(crate::specs::Blocks::found_numbers, block::specs::Shown::shown))]
fn inode_numbers(block: InodeBlock, next: Bookmark) -> BlockNumbers
    ensures { result ≡ found_numbers (Inode block) 0 next }
{
    BlockNumbers {
        inode: block.number,
        mode: block.mode.into(),
        uid: block.uid.into(),
        gid: block.gid.into(),
        atime: block.atime,
        mtime: block.mtime,
        ctime: block.ctime,
        btime: block.btime,
        size: block.size,
        part: block.rest.offset as u64,
        partlen: block.rest.len as u64,
        ..begun(Kind::Inode, block.time, next)
    }
}

// The numbers of a link. An unlink has the same but for the ID.
#[tactic(auto, unfolding(crate::specs::Blocks::found_numbers, block::specs::Shown::shown))]
fn link_numbers(block: LinkBlock, next: Bookmark) -> BlockNumbers
    ensures { result ≡ found_numbers (Link block) 0 next }
{
    BlockNumbers {
        child: block.child,
        parent: block.parent,
        part: block.name.offset as u64,
        partlen: block.name.len as u64,
        ..begun(Kind::Link, block.time, next)
    }
}

#[tactic(auto, unfolding(crate::specs::Blocks::found_numbers, block::specs::Shown::shown))]
fn unlink_numbers(block: LinkBlock, next: Bookmark) -> BlockNumbers
    ensures { result ≡ found_numbers (Unlink block) 0 next }
{
    BlockNumbers {
        id: Kind::Unlink as u64,
        ..link_numbers(block, next)
    }
}

#[tactic(auto, unfolding(crate::specs::Blocks::found_numbers, block::specs::Shown::shown))]
fn xattr_numbers(block: XattrBlock, next: Bookmark) -> BlockNumbers
    ensures { result ≡ found_numbers (Xattr block) 0 next }
{
    BlockNumbers {
        inode: block.number,
        part: block.name.offset as u64,
        partlen: block.name.len as u64,
        second: block.value.offset as u64,
        secondlen: block.value.len as u64,
        ..begun(Kind::Xattr, block.time, next)
    }
}

#[tactic(auto, unfolding(crate::specs::Blocks::found_numbers, block::specs::Shown::shown))]
fn removed_xattr_numbers(block: RemovedXattrBlock, next: Bookmark) -> BlockNumbers
    ensures { result ≡ found_numbers (RemovedXattr block) 0 next }
{
    BlockNumbers {
        inode: block.number,
        part: block.name.offset as u64,
        partlen: block.name.len as u64,
        ..begun(Kind::RemovedXattr, block.time, next)
    }
}

#[tactic(auto, unfolding(crate::specs::Blocks::found_numbers, block::specs::Shown::shown))]
fn data_numbers(block: DataBlock, next: Bookmark) -> BlockNumbers
    ensures { result ≡ found_numbers (Data block) 0 next }
{
    BlockNumbers {
        part: block.payload.offset as u64,
        partlen: block.payload.len as u64,
        ..begun(Kind::Data, block.time, next)
    }
}

#[tactic(auto, unfolding(crate::specs::Blocks::found_numbers, block::specs::Shown::shown))]
fn rename_numbers(block: RenameBlock, next: Bookmark) -> BlockNumbers
    ensures { result ≡ found_numbers (Rename block) 0 next }
{
    BlockNumbers {
        part: block.old.offset as u64,
        partlen: block.old.len as u64,
        second: block.new.offset as u64,
        secondlen: block.new.len as u64,
        ..begun(Kind::Rename, block.time, next)
    }
}

#[tactic(auto, unfolding(crate::specs::Blocks::found_numbers, block::specs::Shown::shown))]
fn table_numbers(block: TableBlock, next: Bookmark) -> BlockNumbers
    ensures { result ≡ found_numbers (Table block) 0 next }
{
    BlockNumbers {
        count: block.count,
        part: block.links.offset as u64,
        partlen: block.links.len as u64,
        ..begun(Kind::Table, 0, next)
    }
}

// A block and the bookmark after it, without the block's own number.
pub(crate) fn block_numbers(block: Block, next: Bookmark) -> BlockNumbers
    ensures { result ≡ found_numbers block 0 next }
{
    match block {
        Block::Inode(b) => inode_numbers(b, next),
        Block::Link(b) => link_numbers(b, next),
        Block::Unlink(b) => unlink_numbers(b, next),
        Block::Xattr(b) => xattr_numbers(b, next),
        Block::RemovedXattr(b) => removed_xattr_numbers(b, next),
        Block::Data(b) => data_numbers(b, next),
        Block::Rename(b) => rename_numbers(b, next),
        Block::Table(b) => table_numbers(b, next),
    }
}
