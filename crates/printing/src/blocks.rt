// The blocks that the programs write, with what is the same in all of them: the owners and times of an inode, and the folder of a link.
use format::new_block::{Data, Inode, Link, NewBlock, RemovedXattr, Rename, Table, Xattr};

// Modes: the type of the file and its permissions in one number, as the format has them.
pub const REGULAR: u16 = 33188;

pub const SYMBOLIC_LINK: u16 = 41471;

pub const FOLDER: u16 = 16877;

// Internal: the builders are functions, since the calls stand in rows and differ in a field or two.
pub fn inode(inode: u64, time: u64, mode: u16, size: u64, rest: &[u8]) -> NewBlock<'_> {
    NewBlock::Inode(Inode {
        inode,
        time,
        mode,
        uid: 1,
        gid: 2,
        atime: 3,
        mtime: 4,
        ctime: 5,
        btime: 6,
        size,
        rest,
    })
}

// A name in the folder 1.
fn named(time: u64, child: u64, name: &[u8]) -> Link<'_> {
    Link {
        time,
        child,
        parent: 1,
        name,
    }
}

pub fn link(time: u64, child: u64, name: &[u8]) -> NewBlock<'_> {
    NewBlock::Link(named(time, child, name))
}

pub fn unlink(time: u64, child: u64, name: &[u8]) -> NewBlock<'_> {
    NewBlock::Unlink(named(time, child, name))
}

pub fn xattr<'a>(time: u64, inode: u64, name: &'a [u8], value: &'a [u8]) -> NewBlock<'a> {
    NewBlock::Xattr(Xattr {
        time,
        inode,
        name,
        value,
    })
}

pub fn removed_xattr(time: u64, inode: u64, name: &[u8]) -> NewBlock<'_> {
    NewBlock::RemovedXattr(RemovedXattr { time, inode, name })
}

pub fn data(time: u64, payload: &[u8]) -> NewBlock<'_> {
    NewBlock::Data(Data { time, payload })
}

pub fn rename<'a>(time: u64, old: &'a [u8], new: &'a [u8]) -> NewBlock<'a> {
    NewBlock::Rename(Rename { time, old, new })
}

pub fn table(count: u64, links: &[u8]) -> NewBlock<'_> {
    NewBlock::Table(Table { count, links })
}
