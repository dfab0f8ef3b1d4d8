// Bookmarks, what an append at one answers, and what readings from one on do.
use block::Block;
use format::new_block::NewBlock;
use refusal::Refusal;
use std::{fmt, io};
use volume::{Bookmark, Found};

// Internal: the most blocks that a bookmark can count.
pub const MOST_BLOCKS: u64 = u64::MAX;

// Internal: the bookmark after the header of volume 0. A bookmark that no call hands out is written as what differs from it.
pub const FIRST: Bookmark = Bookmark {
    offset: 80,
    due: false,
    last: None,
    number: 0,
};

// Internal: the same where no more blocks can be counted.
pub const FULL: Bookmark = Bookmark {
    number: MOST_BLOCKS,
    ..FIRST
};

// Internal: a bookmark for calls that need none.
pub const NOWHERE: Bookmark = Bookmark { offset: 0, ..FIRST };

// Internal: a value of the library as the programs print it.
#[derive(Clone, Copy)]
pub struct Shown<T>(pub T);

// Of a table a bookmark says only that one is due.
impl fmt::Display for Shown<Bookmark> {
    fn fmt<W: fmt::Write>(&self, f: &mut fmt::Formatter<W>) -> fmt::Result {
        write!(f, "{}", self.0.offset)?;
        if self.0.due {
            write!(f, ", table due")?;
        }
        match self.0.last {
            None => write!(f, ", no last time")?,
            Some(time) => write!(f, ", last time {time}")?,
        }
        write!(f, ", number {}", self.0.number)
    }
}

impl fmt::Display for Shown<Block> {
    fn fmt<W: fmt::Write>(&self, f: &mut fmt::Formatter<W>) -> fmt::Result {
        match self.0 {
            Block::Inode(b) => write!(f, "inode at time {}", b.time),
            Block::Link(b) => write!(f, "link at time {}", b.time),
            Block::Unlink(b) => write!(f, "unlink at time {}", b.time),
            Block::Xattr(b) => write!(f, "xattr at time {}", b.time),
            Block::RemovedXattr(b) => write!(f, "removed xattr at time {}", b.time),
            Block::Data(b) => write!(f, "data at time {}", b.time),
            Block::Rename(b) => write!(f, "rename at time {}", b.time),
            Block::Table(_) => write!(f, "table"),
        }
    }
}

impl fmt::Display for Shown<Found> {
    fn fmt<W: fmt::Write>(&self, f: &mut fmt::Formatter<W>) -> fmt::Result {
        let found = self.0;
        write!(
            f,
            "block {}, {}, next {}",
            found.number,
            Shown(found.block),
            Shown(found.next)
        )
    }
}

// Internal: prints the answer of a call that writes, and gives the bookmark for the next one: after a refusal, the same again.
pub fn onward(
    rt: &impl Print,
    call: &str,
    mark: Bookmark,
    answer: Result<Bookmark, Refusal>,
) -> io::Result<Bookmark> {
    match answer {
        Ok(next) => {
            println!(rt; "write {call}: next {}", Shown(next))?;
            Ok(next)
        }
        Err(refusal) => {
            println!(rt; "write {call}: {refusal}")?;
            Ok(mark)
        }
    }
}

// Internal: appends a block, prints the answer, and gives the bookmark for the next call.
pub fn append(
    rt: &impl Print,
    buf: &mut [u8],
    call: &str,
    mark: Bookmark,
    block: NewBlock<'_>,
) -> io::Result<Bookmark> {
    onward(rt, call, mark, mark.append(buf, block))
}

// Reads at a bookmark, prints what that answers, and hands on the block.
fn reading(rt: &impl Print, volume: &[u8], mark: Bookmark) -> io::Result<Option<Found>> {
    match mark.read(volume) {
        Ok(Some(found)) => {
            println!(rt; "read at {}: {}", Shown(mark), Shown(found))?;
            Ok(Some(found))
        }
        Ok(None) => {
            println!(rt; "read at {}: end", Shown(mark))?;
            Ok(None)
        }
        Err(refusal) => {
            println!(rt; "read at {}: {refusal}", Shown(mark))?;
            Ok(None)
        }
    }
}

// Internal: prints what each reading answers from a bookmark on, until the end or a refusal. Each block takes at least a byte,
// so there are no more readings than bytes.
pub fn print_readings(rt: &impl Print, volume: &[u8], first: Bookmark) -> io::Result<()> {
    let mut mark = first;
    for _ in 0..volume.len() {
        let Some(found) = reading(rt, volume, mark)? else {
            return Ok(());
        };
        mark = found.next;
    }
    Ok(())
}
