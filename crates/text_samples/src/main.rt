// Appends of every kind of block that has a text, with texts that are not UTF-8, into a buffer with room for each: which text is the
// first that is bad, and where in it the fault begins. With them are refusals before and after this one.
#![tactic(auto)]

use printing::blocks::{SYMBOLIC_LINK, inode, link, removed_xattr, rename, table, unlink, xattr};
use printing::bookmarks::{FIRST, FULL, Shown, append};
use std::io;
use volume::Bookmark;

const ROOM: usize = 65700;

// The bookmark of the calls that follow.
fn print_heading(rt: &impl Print, mark: Bookmark) -> io::Result<()> {
    println!(rt; "at {}:", Shown(mark))
}

// The value of the attribute is no text.
fn names(rt: &impl Print, buf: &mut [u8; ROOM], mark: Bookmark, text: &[u8]) -> io::Result<()> {
    append(rt, buf, "link", mark, link(1, 8, text))?;
    append(rt, buf, "unlink", mark, unlink(1, 8, text))?;
    append(rt, buf, "xattr", mark, xattr(1, 7, text, b"\xFF"))?;
    append(rt, buf, "removed xattr", mark, removed_xattr(1, 7, text))?;
    Ok(())
}

// The size of the inode is that of a target of five bytes.
fn paths(rt: &impl Print, buf: &mut [u8; ROOM], mark: Bookmark, text: &[u8]) -> io::Result<()> {
    append(rt, buf, "rename to it", mark, rename(1, b"gauge", text))?;
    append(rt, buf, "rename of it", mark, rename(1, text, b"\xFF"))?;
    append(
        rt,
        buf,
        "symbolic link",
        mark,
        inode(7, 1, SYMBOLIC_LINK, 75, text),
    )?;
    Ok(())
}

// Each append is made at the same bookmark.
fn all_kinds(rt: &impl Print, buf: &mut [u8; ROOM], mark: Bookmark, text: &[u8]) -> io::Result<()> {
    print_heading(rt, mark)?;
    names(rt, buf, mark, text)?;
    paths(rt, buf, mark, text)?;
    Ok(())
}

// Texts at the beginning of a volume. The last two have 40,010 bytes and 65,536, which no name and no path can have.
fn bad_texts(rt: &impl Print, buf: &mut [u8; ROOM]) -> io::Result<()> {
    let mut long = [97u8; 40010];
    long[39999] = 255;
    all_kinds(rt, buf, FIRST, b"a\xFFb")?;
    all_kinds(rt, buf, FIRST, b"x\xC0\x80")?;
    all_kinds(rt, buf, FIRST, b"ab\x80")?;
    all_kinds(rt, buf, FIRST, b"\xF0\x9F\x92")?;
    all_kinds(rt, buf, FIRST, b"un\xE2\x28")?;
    all_kinds(rt, buf, FIRST, b"ab\xED\xA0\x80")?;
    all_kinds(rt, buf, FIRST, &long)?;
    all_kinds(rt, buf, FIRST, &[255u8; 65536])?;
    Ok(())
}

// The place and the number of blocks come before a text. A lower time, no room and the limit come after it.
fn orders(rt: &impl Print, buf: &mut [u8; ROOM]) -> io::Result<()> {
    let late = Bookmark {
        last: Some(9),
        ..FIRST
    };
    let no_room = Bookmark {
        offset: ROOM - 10,
        ..late
    };
    let at_the_limit = Bookmark {
        offset: 16777196,
        ..late
    };
    all_kinds(rt, buf, Bookmark { due: true, ..FIRST }, b"a\xFFb")?;
    all_kinds(rt, buf, FULL, b"a\xFFb")?;
    all_kinds(rt, buf, late, b"ab\xFF")?;
    all_kinds(rt, buf, no_room, b"ab\xFF")?;
    all_kinds(rt, buf, at_the_limit, b"ab\xFF")?;
    Ok(())
}

// The names of three links, of which two are bad. Links that are not those that are stated come before that, and a link that
// stands twice after it.
fn tables(rt: &impl Print, buf: &mut [u8; ROOM]) -> io::Result<()> {
    let links =
        b"\x08\0\0\0\0\0\0\0\x01\0\0\0\0\0\0\0\x02\0ok\x09\0\0\0\0\0\0\0\x01\0\0\0\0\0\0\0\x03\0\xC3\xA9\x80\x0A\0\0\0\0\0\0\0\x01\0\0\0\0\0\0\0\x01\0\xFF";
    let twice =
        b"\x08\0\0\0\0\0\0\0\x01\0\0\0\0\0\0\0\x01\0\xFF\x09\0\0\0\0\0\0\0\x01\0\0\0\0\0\0\0\x01\0\xFF";
    let mark = Bookmark { due: true, ..FIRST };
    print_heading(rt, mark)?;
    append(rt, buf, "table", mark, table(3, links))?;
    append(rt, buf, "table with one link more", mark, table(2, links))?;
    append(rt, buf, "table, link twice", mark, table(2, twice))?;
    Ok(())
}

// No refused call changes the buffer.
fn compare_unwritten(rt: &impl Print, buf: &[u8; ROOM]) -> io::Result<()> {
    if buf == &[9u8; ROOM] {
        println!(rt; "written: nothing")
    } else {
        println!(rt; "written: something")
    }
}

// The last text is sound: only the path FF that a rename has besides and the size of the symbolic link are refused.
fn main(rt: HostRuntime) -> io::Result<()> {
    let mut buf = [9u8; ROOM];
    bad_texts(&rt, &mut buf)?;
    orders(&rt, &mut buf)?;
    tables(&rt, &mut buf)?;
    compare_unwritten(&rt, &buf)?;
    all_kinds(&rt, &mut buf, FIRST, b"unit")?;
    Ok(())
}
