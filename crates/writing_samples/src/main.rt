// A volume with a block of every kind, written afresh into a buffer that it fills, with refused calls among the accepted
// ones. The bytes are then compared with those of all_kinds.vol, which was made from the layouts by other means, and listed.
// A second volume has two blocks at one time, and a third one more than can be counted.
#![tactic(auto)]

mod calls;

use calls::{at, compare, header};
use printing::blocks::{
    FOLDER, REGULAR, SYMBOLIC_LINK, data, inode, link, removed_xattr, rename, table, unlink, xattr,
};
use printing::bookmarks::{FIRST, FULL, MOST_BLOCKS, NOWHERE, append, onward, print_readings};
use printing::{load, print_bytes};
use std::io;
use std::rt::Files;
use volume::Bookmark;

// Headers that are refused: an ID and a hash of other lengths, a hash in volume 0, no room.
fn no_headers(rt: &impl Print, buf: &mut [u8; 659]) -> io::Result<()> {
    let id = b"\0\x01\x02\x03\x04\x05\x06\x07\x08\x09\x0A\x0B\x0C\x0D\x0E\x0F";
    let a = volume::heading::write_header(buf, &[0u8; 15], 1, &[9u8; 32]);
    onward(rt, "header, ID of 15 bytes", NOWHERE, a)?;
    let b = volume::heading::write_header(buf, id, 1, &[9u8; 33]);
    onward(rt, "header, hash of 33 bytes", NOWHERE, b)?;
    let c = volume::heading::write_header(buf, id, 0, &[9u8; 32]);
    onward(rt, "header of volume 0 with a hash", NOWHERE, c)?;
    Ok(())
}

fn no_room(rt: &impl Print) -> io::Result<()> {
    let mut little = [0u8; 79];
    let a = volume::heading::write_header(&mut little, &[0u8; 16], 1, &[9u8; 32]);
    onward(rt, "header in 79 bytes", NOWHERE, a)?;
    Ok(())
}

fn start(rt: &impl Print, buf: &mut [u8; 659]) -> io::Result<Bookmark> {
    header(rt, buf, 1, &[9u8; 32])
}

// The table: what is refused where it is due, and then the table itself.
fn tables(rt: &impl Print, buf: &mut [u8; 659], first: Bookmark) -> io::Result<Bookmark> {
    let links =
        b"\x08\0\0\0\0\0\0\0\x01\0\0\0\0\0\0\0\x05\0gauge\x09\0\0\0\0\0\0\0\x01\0\0\0\0\0\0\0\x03\0log";
    let twice =
        b"\x08\0\0\0\0\0\0\0\x01\0\0\0\0\0\0\0\x01\0a\x09\0\0\0\0\0\0\0\x01\0\0\0\0\0\0\0\x01\0a";
    let mut mark = first;
    mark = append(rt, buf, "data where a table is due", mark, data(1, b"1,5"))?;
    mark = append(rt, buf, "table of 4,097 links", mark, table(4097, links))?;
    mark = append(rt, buf, "table with one link more", mark, table(1, links))?;
    mark = append(rt, buf, "table with one link less", mark, table(3, links))?;
    mark = append(rt, buf, "table, link twice", mark, table(2, twice))?;
    mark = append(rt, buf, "table", mark, table(2, links))?;
    append(rt, buf, "second table", mark, table(2, links))
}

// Regular files that are refused: too many bytes, bytes that are no extents, and ranges that overlap.
fn no_files(rt: &impl Print, buf: &mut [u8; 659], first: Bookmark) -> io::Result<Bookmark> {
    let overlapping =
        b"\0\0\0\0\0\0\0\0a\0\0\0\0\0\0\0\x03\0\0\0\0\0\0\0C\x01\0\0\0\0\0\0\0\0\0\0\0\0\0\0\0\0\0\0\0\0\0\0\0\0\0\0\0\0\0\0\0\0\0\0\0\0\0\0\0a\0\0\0\0\0\0\0\x03\0\0\0\0\0\0\0R\x03\0\0\0\0\0\0\0\x01\0\0\0\0\0\0\0\x01\0\0\0\0\0\0\0\x02\0\0\0\0\0\0\0";
    let mut mark = first;
    mark = append(
        rt,
        buf,
        "inode of 1,025 extents",
        mark,
        inode(7, 1, REGULAR, 14, &[0u8; 58425]),
    )?;
    mark = append(
        rt,
        buf,
        "inode, 56 bytes",
        mark,
        inode(7, 1, REGULAR, 14, &[0u8; 56]),
    )?;
    mark = append(
        rt,
        buf,
        "inode, multiplicity 0",
        mark,
        inode(7, 1, REGULAR, 14, &[0u8; 57]),
    )?;
    append(
        rt,
        buf,
        "inode, ranges overlap",
        mark,
        inode(7, 1, REGULAR, 14, overlapping),
    )
}

// Volume, start, block size, multiplicity, count, pre, post and logical start: (0, 97, 3, 67, 1, 0, 0, 0) and
// (0, 97, 3, 82, 3, 1, 1, 4).
fn file(rt: &impl Print, buf: &mut [u8; 659], mark: Bookmark) -> io::Result<Bookmark> {
    let list =
        b"\0\0\0\0\0\0\0\0a\0\0\0\0\0\0\0\x03\0\0\0\0\0\0\0C\x01\0\0\0\0\0\0\0\0\0\0\0\0\0\0\0\0\0\0\0\0\0\0\0\0\0\0\0\0\0\0\0\0\0\0\0\0\0\0\0a\0\0\0\0\0\0\0\x03\0\0\0\0\0\0\0R\x03\0\0\0\0\0\0\0\x01\0\0\0\0\0\0\0\x01\0\0\0\0\0\0\0\x04\0\0\0\0\0\0\0";
    append(rt, buf, "inode", mark, inode(7, 1, REGULAR, 14, list))
}

fn symbolic_links(rt: &impl Print, buf: &mut [u8; 659], first: Bookmark) -> io::Result<Bookmark> {
    let mut mark = first;
    mark = append(
        rt,
        buf,
        "target of another size",
        mark,
        inode(7, 2, SYMBOLIC_LINK, 76, b"gauge"),
    )?;
    append(
        rt,
        buf,
        "symbolic link",
        mark,
        inode(7, 2, SYMBOLIC_LINK, 75, b"gauge"),
    )
}

fn folders(rt: &impl Print, buf: &mut [u8; 659], first: Bookmark) -> io::Result<Bookmark> {
    let mut mark = first;
    mark = append(
        rt,
        buf,
        "folder with a byte",
        mark,
        inode(7, 3, FOLDER, 70, b"\xFF"),
    )?;
    mark = append(
        rt,
        buf,
        "folder at a lower time",
        mark,
        inode(7, 1, FOLDER, 70, b""),
    )?;
    append(rt, buf, "folder", mark, inode(7, 3, FOLDER, 70, b""))
}

// The value of the attribute is no text.
fn names(rt: &impl Print, buf: &mut [u8; 659], first: Bookmark) -> io::Result<Bookmark> {
    let mut mark = first;
    mark = append(
        rt,
        buf,
        "link, name of 65,536 bytes",
        mark,
        link(4, 8, &[0u8; 65536]),
    )?;
    mark = append(rt, buf, "link", mark, link(4, 8, b"gauge"))?;
    mark = append(rt, buf, "unlink", mark, unlink(5, 8, b"log"))?;
    mark = append(
        rt,
        buf,
        "xattr, name of 256 bytes",
        mark,
        xattr(6, 7, &[0u8; 256], b"m\xFF"),
    )?;
    mark = append(rt, buf, "xattr", mark, xattr(6, 7, b"unit", b"m\xFF"))?;
    append(rt, buf, "removed xattr", mark, removed_xattr(7, 7, b"unit"))
}

// Data and a rename, and after them the buffer is full.
fn last_blocks(rt: &impl Print, buf: &mut [u8; 659], first: Bookmark) -> io::Result<Bookmark> {
    let mut mark = first;
    mark = append(rt, buf, "data", mark, data(8, b"1,5"))?;
    mark = append(
        rt,
        buf,
        "rename",
        mark,
        rename(9, b"gauge", b"p\xC3\xA9gel"),
    )?;
    append(rt, buf, "data without room", mark, data(10, b""))
}

// Bookmarks that no call hands out. The time comes before the limit: a lower one is refused for itself, and at the same one the
// limit decides.
fn bookmarks(rt: &impl Print, buf: &mut [u8; 659]) -> io::Result<()> {
    let early = Bookmark {
        offset: 79,
        ..FIRST
    };
    at(rt, buf, "data", early, data(1, b"1,5"))?;
    let full = Bookmark {
        offset: 16777196,
        ..FIRST
    };
    at(rt, buf, "table", full, table(0, b""))?;
    let late = Bookmark {
        last: Some(u64::MAX),
        ..full
    };
    let lower = data(u64::MAX - 1, b"1,5");
    at(rt, buf, "data over the limit at a lower time", late, lower)?;
    let same = data(u64::MAX, b"1,5");
    at(rt, buf, "data over the limit at the same time", late, same)?;
    let past = Bookmark {
        offset: usize::MAX,
        ..FIRST
    };
    at(rt, buf, "data past the limit", past, data(1, b"1,5"))?;
    Ok(())
}

// The room is as long as the text must be: any other text shows in it, so the answer is not looked at.
fn compare_and_list(rt: &(impl Print + Eprint + Files), written: &[u8; 659]) -> io::Result<()> {
    compare(rt, written, "all_kinds.vol")?;
    let mut text = [0u8; 125];
    let _ = listing::list(written, &mut text);
    print_bytes(rt, &text)
}

fn compare_two(rt: &(impl Print + Eprint + Files), written: &[u8; 128]) -> io::Result<()> {
    compare(rt, written, "same_time.vol")?;
    Ok(())
}

// The refused call comes last, at the bookmark where the second block was written: had it changed the buffer, the comparison
// would show it.
fn two_at_one_time(rt: &(impl Print + Eprint + Files)) -> io::Result<()> {
    let mut buf = [0u8; 128];
    let first = header(rt, &mut buf, 0, &[0u8; 32])?;
    let mark = append(rt, &mut buf, "data", first, data(7, b"1,5"))?;
    append(rt, &mut buf, "data at the same time", mark, data(7, b"1,5"))?;
    at(rt, &mut buf, "data at a lower time", mark, data(6, b"1,5"))?;
    compare_two(rt, &buf)?;
    Ok(())
}

// The end bookmark of V, but for the number of its blocks: no more can be counted.
const AFTER_V: Bookmark = Bookmark {
    offset: 104,
    last: Some(7),
    ..FULL
};

// Calls where no more blocks can be counted: only a wrong place comes before that.
fn not_counted(rt: &impl Print, buf: &mut [u8; 128]) -> io::Result<()> {
    let mark = AFTER_V;
    let due = Bookmark { due: true, ..mark };
    at(rt, buf, "data", mark, data(7, b"2,5"))?;
    at(rt, buf, "data", due, data(7, b"2,5"))?;
    at(rt, buf, "data at a lower time", mark, data(6, b"2,5"))?;
    at(rt, buf, "link, name not text", mark, link(7, 8, b"\xFF"))?;
    at(
        rt,
        buf,
        "table with one link more",
        due,
        table(0, b"\x08\0\0\0\0\0\0\0\x01\0\0\0\0\0\0\0\x01\0a"),
    )?;
    Ok(())
}

// The last block that can be counted, behind V, and more. The calls of `not_counted` are made where that block was written,
// so that the comparison would show it if one had changed the buffer.
fn last_number(rt: &(impl Print + Eprint + Files)) -> io::Result<()> {
    let mut buf = [0u8; 128];
    load(rt, b"v.vol", &mut buf)?;
    println!(rt; "v.vol, appended to:")?;
    let mark = Bookmark {
        number: MOST_BLOCKS - 1,
        ..AFTER_V
    };
    let full = at(rt, &mut buf, "data", mark, data(7, b"1,5"))?;
    at(rt, &mut buf, "data without room", full, data(7, b""))?;
    print_readings(rt, &buf, full)?;
    not_counted(rt, &mut buf)?;
    compare_two(rt, &buf)?;
    Ok(())
}

fn main(rt: HostRuntime) -> io::Result<()> {
    let mut buf = [0u8; 659];
    no_headers(&rt, &mut buf)?;
    no_room(&rt)?;
    let mut mark = start(&rt, &mut buf)?;
    mark = tables(&rt, &mut buf, mark)?;
    mark = no_files(&rt, &mut buf, mark)?;
    mark = file(&rt, &mut buf, mark)?;
    mark = symbolic_links(&rt, &mut buf, mark)?;
    mark = folders(&rt, &mut buf, mark)?;
    mark = names(&rt, &mut buf, mark)?;
    last_blocks(&rt, &mut buf, mark)?;
    bookmarks(&rt, &mut buf)?;
    compare_and_list(&rt, &buf)?;
    two_at_one_time(&rt)?;
    last_number(&rt)?;
    Ok(())
}
