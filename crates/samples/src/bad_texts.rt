// Volumes with a text that is not UTF-8, read from the header on: which text of the block is the first that is bad, and where in it
// the fault begins. With them are bytes that are no text, and refusals before and after this one.
use crate::bookmarks::from_header;
use printing::bookmarks::{FIRST, FULL, print_readings};
use printing::load;
use std::io;
use std::rt::Files;
use volume::Bookmark;

// Not inlined: its buffer would stand in the frame of the caller, beside that of a call.
#[inline(never)]
fn row(rt: &(impl Print + Eprint + Files), name: &str) -> io::Result<()> {
    let mut buf = [0u8; 65536];
    let n = load(rt, name.as_bytes(), &mut buf)?;
    println!(rt; "{name}, read:")?;
    from_header(rt, &buf[..n])
}

// A link at time 1, read at several bookmarks: its place comes before its name, its time and its number after that.
fn places(rt: &(impl Print + Eprint + Files)) -> io::Result<()> {
    let mut buf = [0u8; 256];
    let n = load(rt, b"link_bad.vol", &mut buf)?;
    let volume = &buf[..n];
    println!(rt; "link_bad.vol, read:")?;
    let before = Bookmark {
        offset: 79,
        ..FIRST
    };
    let later = Bookmark {
        last: Some(2),
        ..FULL
    };
    print_readings(rt, volume, FIRST)?;
    print_readings(rt, volume, Bookmark { due: true, ..FIRST })?;
    print_readings(rt, volume, before)?;
    print_readings(rt, volume, later)
}

// Blocks with one text. The value of an attribute is none.
fn one_text(rt: &(impl Print + Eprint + Files)) -> io::Result<()> {
    row(rt, "unlink_bad.vol")?;
    row(rt, "xattr_bad.vol")?;
    row(rt, "xattr_value_not_text.vol")?;
    row(rt, "removed_xattr_bad.vol")?;
    row(rt, "target_bad.vol")
}

// Blocks with several texts, of which the first that is bad is told, and paths of 40,010 bytes.
fn several_texts(rt: &(impl Print + Eprint + Files)) -> io::Result<()> {
    row(rt, "new_path_bad.vol")?;
    row(rt, "both_paths_bad.vol")?;
    row(rt, "long_old_path_bad.vol")?;
    row(rt, "long_new_path_bad.vol")?;
    row(rt, "two_names_bad.vol")
}

// A text comes before a link that stands twice, an inode's size and the time. The bytes of a folder are no text, and the checksum
// comes first.
fn orders(rt: &(impl Print + Eprint + Files)) -> io::Result<()> {
    row(rt, "link_twice_bad.vol")?;
    row(rt, "target_bad_of_another_size.vol")?;
    row(rt, "link_bad_at_lower_time.vol")?;
    row(rt, "folder_with_byte_ff.vol")?;
    row(rt, "link_bad_with_wrong_sum.vol")
}

pub fn all(rt: &(impl Print + Eprint + Files)) -> io::Result<()> {
    places(rt)?;
    one_text(rt)?;
    several_texts(rt)?;
    orders(rt)?;
    Ok(())
}
