// What the written volumes share: appends at a bookmark that is shown, headers, and the comparison with a volume that was made
// by other means.
use format::new_block::NewBlock;
use printing::bookmarks::{NOWHERE, Shown, append, onward};
use printing::load;
use std::io;
use std::rt::Files;
use volume::Bookmark;

// Prints the bookmark, and behind it what an append there answers.
pub fn at(
    rt: &impl Print,
    buf: &mut [u8],
    call: &str,
    mark: Bookmark,
    block: NewBlock<'_>,
) -> io::Result<Bookmark> {
    print!(rt; "at {}: ", Shown(mark))?;
    append(rt, buf, call, mark, block)
}

pub fn header(
    rt: &impl Print,
    buf: &mut [u8],
    sequence: u64,
    previous: &[u8; 32],
) -> io::Result<Bookmark> {
    let id = b"\0\x01\x02\x03\x04\x05\x06\x07\x08\x09\x0A\x0B\x0C\x0D\x0E\x0F";
    let a = volume::heading::write_header(buf, id, sequence, previous);
    onward(rt, "header", NOWHERE, a)
}

// Whether the volume that was written is the one made by other means.
pub fn compare(rt: &(impl Print + Eprint + Files), written: &[u8], name: &str) -> io::Result<()> {
    let mut made = [0u8; 1024];
    let n = load(rt, name.as_bytes(), &mut made)?;
    if written == &made[..n] {
        println!(rt; "written: the bytes of {name}")
    } else {
        println!(rt; "written: other bytes than {name}")
    }
}
