// Writing a header and appending blocks, as numbers.
//
// Each append makes a bookmark of five numbers, which are those that the call before answered, and answers the numbers of
// the bookmark after the block. A refusal leaves the buffer as it was. Each kind of block has a call of its own, as the C interface has
// no enum that holds fields.
ghost use Rattle.std.specs.Prelude.{◌≡◌, length};
ghost use Rattle.format.specs.Blocks as format;
ghost use Rattle.volume.specs.Writing.{append_answer, append_buffer, write_answer, write_buffer};
ghost use Rattle.exchange.specs.Marks.{bookmark_of};
ghost use Rattle.exchange.specs.Writing.{written_numbers};

use crate::MarkNumbers;
use crate::marks::{bookmark_of, time_number, timed_number};
use format::new_block::{Data, Inode, Link, NewBlock, RemovedXattr, Rename, Table, Xattr};
use refusal::Refusal;
use volume::Bookmark;
use volume::heading::write_header;

#[tactic(auto, unfolding(crate::specs::Writing::written_numbers))]
impl From<Result<Bookmark, Refusal>> for MarkNumbers {
    ghost from_gives = { λ answer numbers. numbers ≡ written_numbers answer };

    fn from(answer: Result<Bookmark, Refusal>) -> MarkNumbers {
        match answer {
            Ok(mark) => MarkNumbers {
                next: mark.offset as u64,
                due: mark.due.into(),
                timed: timed_number(mark.last),
                last: time_number(mark.last),
                number: mark.number,
                ..Default::default()
            },
            Err(refusal) => MarkNumbers {
                refusal: refusal.fault().into(),
                text: refusal.text(),
                start: refusal.start(),
                ..Default::default()
            },
        }
    }
}

// Writes a header at the beginning of the buffer.
#[unsafe(no_mangle)]
pub extern "C" fn hdrfs_write_header(
    buf: &mut [u8],
    id: &[u8],
    sequence: u64,
    previous: &[u8],
) -> MarkNumbers
    ensures answer { result ≡ written_numbers (write_answer (length buf.old)
        (record { id = id.entry.now; sequence = sequence; previous = previous.now })) }
    ensures buffer { buf.new ≡ write_buffer buf.old
        (record { id = id.entry.now; sequence = sequence; previous = previous.now }) }
{
    write_header(buf, id, sequence, previous).into()
}

// Appends an inode block, `rest` being its target or its list of extents.
#[unsafe(no_mangle)]
pub extern "C" fn hdrfs_append_inode(
    buf: &mut [u8],
    offset: u64,
    due: u64,
    timed: u64,
    last: u64,
    number: u64,
    inode: u64,
    time: u64,
    mode: u16,
    uid: u16,
    gid: u16,
    atime: u64,
    mtime: u64,
    ctime: u64,
    btime: u64,
    size: u64,
    rest: &[u8],
) -> MarkNumbers
    ensures answer { result ≡ written_numbers (append_answer (length buf.old) (bookmark_of offset due timed last number)
        (format.Inode (record { inode = inode; time = time; mode = mode; uid = uid; gid = gid; atime = atime; mtime = mtime; ctime = ctime; btime = btime; size = size; rest = rest.now }))) }
    ensures buffer { buf.new ≡ append_buffer buf.old (bookmark_of offset due timed last number)
        (format.Inode (record { inode = inode; time = time; mode = mode; uid = uid; gid = gid; atime = atime; mtime = mtime; ctime = ctime; btime = btime; size = size; rest = rest.now })) }
{
    let mark = bookmark_of(offset, due, timed, last, number);
    let block = NewBlock::Inode(Inode {
        inode,
        time,
        mode,
        uid,
        gid,
        atime,
        mtime,
        ctime,
        btime,
        size,
        rest,
    });
    mark.append(buf, block).into()
}

// Appends a link block.
#[unsafe(no_mangle)]
pub extern "C" fn hdrfs_append_link(
    buf: &mut [u8],
    offset: u64,
    due: u64,
    timed: u64,
    last: u64,
    number: u64,
    time: u64,
    child: u64,
    parent: u64,
    name: &[u8],
) -> MarkNumbers
    ensures answer { result ≡ written_numbers (append_answer (length buf.old) (bookmark_of offset due timed last number)
        (format.Link (record { time = time; child = child; parent = parent; name = name.now }))) }
    ensures buffer { buf.new ≡ append_buffer buf.old (bookmark_of offset due timed last number)
        (format.Link (record { time = time; child = child; parent = parent; name = name.now })) }
{
    let mark = bookmark_of(offset, due, timed, last, number);
    let block = NewBlock::Link(Link {
        time,
        child,
        parent,
        name,
    });
    mark.append(buf, block).into()
}

// Appends an unlink block.
#[unsafe(no_mangle)]
pub extern "C" fn hdrfs_append_unlink(
    buf: &mut [u8],
    offset: u64,
    due: u64,
    timed: u64,
    last: u64,
    number: u64,
    time: u64,
    child: u64,
    parent: u64,
    name: &[u8],
) -> MarkNumbers
    ensures answer { result ≡ written_numbers (append_answer (length buf.old) (bookmark_of offset due timed last number)
        (format.Unlink (record { time = time; child = child; parent = parent; name = name.now }))) }
    ensures buffer { buf.new ≡ append_buffer buf.old (bookmark_of offset due timed last number)
        (format.Unlink (record { time = time; child = child; parent = parent; name = name.now })) }
{
    let mark = bookmark_of(offset, due, timed, last, number);
    let block = NewBlock::Unlink(Link {
        time,
        child,
        parent,
        name,
    });
    mark.append(buf, block).into()
}

// Appends an xattr block.
#[unsafe(no_mangle)]
pub extern "C" fn hdrfs_append_xattr(
    buf: &mut [u8],
    offset: u64,
    due: u64,
    timed: u64,
    last: u64,
    number: u64,
    time: u64,
    inode: u64,
    name: &[u8],
    value: &[u8],
) -> MarkNumbers
    ensures answer { result ≡ written_numbers (append_answer (length buf.old) (bookmark_of offset due timed last number)
        (format.Xattr (record { time = time; inode = inode; name = name.now; value = value.now }))) }
    ensures buffer { buf.new ≡ append_buffer buf.old (bookmark_of offset due timed last number)
        (format.Xattr (record { time = time; inode = inode; name = name.now; value = value.now })) }
{
    let mark = bookmark_of(offset, due, timed, last, number);
    let block = NewBlock::Xattr(Xattr {
        time,
        inode,
        name,
        value,
    });
    mark.append(buf, block).into()
}

// Appends a removed xattr block.
#[unsafe(no_mangle)]
pub extern "C" fn hdrfs_append_removed_xattr(
    buf: &mut [u8],
    offset: u64,
    due: u64,
    timed: u64,
    last: u64,
    number: u64,
    time: u64,
    inode: u64,
    name: &[u8],
) -> MarkNumbers
    ensures answer { result ≡ written_numbers (append_answer (length buf.old) (bookmark_of offset due timed last number)
        (format.RemovedXattr (record { time = time; inode = inode; name = name.now }))) }
    ensures buffer { buf.new ≡ append_buffer buf.old (bookmark_of offset due timed last number)
        (format.RemovedXattr (record { time = time; inode = inode; name = name.now })) }
{
    let mark = bookmark_of(offset, due, timed, last, number);
    let block = NewBlock::RemovedXattr(RemovedXattr { time, inode, name });
    mark.append(buf, block).into()
}

// Appends a data block.
#[unsafe(no_mangle)]
pub extern "C" fn hdrfs_append_data(
    buf: &mut [u8],
    offset: u64,
    due: u64,
    timed: u64,
    last: u64,
    number: u64,
    time: u64,
    payload: &[u8],
) -> MarkNumbers
    ensures answer { result ≡ written_numbers (append_answer (length buf.old) (bookmark_of offset due timed last number)
        (format.Data (record { time = time; payload = payload.now }))) }
    ensures buffer { buf.new ≡ append_buffer buf.old (bookmark_of offset due timed last number)
        (format.Data (record { time = time; payload = payload.now })) }
{
    let mark = bookmark_of(offset, due, timed, last, number);
    let block = NewBlock::Data(Data { time, payload });
    mark.append(buf, block).into()
}

// Appends a rename block.
#[unsafe(no_mangle)]
pub extern "C" fn hdrfs_append_rename(
    buf: &mut [u8],
    offset: u64,
    due: u64,
    timed: u64,
    last: u64,
    number: u64,
    time: u64,
    old: &[u8],
    new: &[u8],
) -> MarkNumbers
    ensures answer { result ≡ written_numbers (append_answer (length buf.old) (bookmark_of offset due timed last number)
        (format.Rename (record { time = time; old = old.now; new = new.now }))) }
    ensures buffer { buf.new ≡ append_buffer buf.old (bookmark_of offset due timed last number)
        (format.Rename (record { time = time; old = old.now; new = new.now })) }
{
    let mark = bookmark_of(offset, due, timed, last, number);
    let block = NewBlock::Rename(Rename { time, old, new });
    mark.append(buf, block).into()
}

// Appends a link table, which has no time, `links` being the bytes of its `count` links.
#[unsafe(no_mangle)]
pub extern "C" fn hdrfs_append_table(
    buf: &mut [u8],
    offset: u64,
    due: u64,
    timed: u64,
    last: u64,
    number: u64,
    count: u64,
    links: &[u8],
) -> MarkNumbers
    ensures answer { result ≡ written_numbers (append_answer (length buf.old) (bookmark_of offset due timed last number)
        (format.Table (record { count = count; links = links.now }))) }
    ensures buffer { buf.new ≡ append_buffer buf.old (bookmark_of offset due timed last number)
        (format.Table (record { count = count; links = links.now })) }
{
    let mark = bookmark_of(offset, due, timed, last, number);
    let block = NewBlock::Table(Table { count, links });
    mark.append(buf, block).into()
}
