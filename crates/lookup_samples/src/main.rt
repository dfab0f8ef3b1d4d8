// Lookups in the sample volume gauge.vol: single positions, ranges with more and with less room, and stored bytes. Then lookups
// at blocks with a text that is not UTF-8.
#![tactic(auto)]

#[cfg(test)]
mod own_counter;

use format::{Logical, Physical};
use lookup::Position;
use printing::{load, print_bytes};
use std::io;
use std::rt::Files;

// Where the inode blocks of gauge.vol stand: files A, A with post 2, and B of the rules, a folder, two files with an extent
// that is not there, one that keeps nothing, and one of 2^63 copies of a byte.
const A_AT: usize = 104;

const POST_AT: usize = 236;

const B_AT: usize = 368;

const FOLDER_AT: usize = 500;

const BEYOND_AT: usize = 575;

const OTHER_AT: usize = 707;

const NOTHING_AT: usize = 839;

const COPIES_AT: usize = 971;

fn print_numbers(rt: &impl Print, numbers: &[u64]) -> io::Result<()> {
    for number in numbers {
        print!(rt; " {number}")?;
    }
    Ok(())
}

fn position_row(
    rt: &impl Print,
    volume: &[u8],
    offset: usize,
    lengths: &[u8],
    position: u64,
) -> io::Result<()> {
    print!(rt; "inode at {offset}, position {position}: ")?;
    match lookup::query::position(volume, offset, lengths, Logical(position)) {
        Ok(Position::Hole) => println!(rt; "hole"),
        Ok(Position::PastEnd) => println!(rt; "past end"),
        Ok(Position::Stored(place)) => {
            println!(rt; "volume {} offset {}", place.volume, place.offset.0)
        }
        Err(refusal) => println!(rt; "{refusal}"),
    }
}

// The lent list holds nines before the call and is printed whole after it, so that a number which was not to change shows.
fn runs_row(
    rt: &impl Print,
    volume: &[u8],
    offset: usize,
    lengths: &[u8],
    from: u64,
    to: u64,
    out: &mut [u64],
) -> io::Result<()> {
    print!(rt; "inode at {offset}, {from} to {to}, room {}: ", out.len())?;
    match lookup::query::runs(volume, offset, lengths, Logical(from), Logical(to), out) {
        Ok(count) => print!(rt; "{count} runs")?,
        Err(refusal) => print!(rt; "{refusal}")?,
    }
    print_numbers(rt, out)?;
    println!(rt;)
}

fn fetch_row<'a>(
    rt: &impl Print,
    first: &'a [u8],
    second: &'a [u8],
    number: u64,
    offset: u64,
    len: u64,
) -> io::Result<()> {
    let offset = Physical(offset);
    let refusal = match lookup::bytes::fetch_refusal(first, second, number, offset, len) {
        Ok(()) => 0,
        Err(fault) => u64::from(fault),
    };
    print!(rt;
        "fetch {len} at {} of volume {number}: {refusal} [",
        offset.0
    )?;
    print_bytes(rt, lookup::bytes::fetch(first, second, number, offset, len))?;
    println!(rt; "]")
}

// Stored bytes, holes, and positions past the end.
fn stored_and_holes(rt: &impl Print, volume: &[u8]) -> io::Result<()> {
    let lengths = [104u8, 0, 0, 0, 0, 0, 0, 0];
    position_row(rt, volume, A_AT, &lengths, 0)?;
    position_row(rt, volume, A_AT, &lengths, 2)?;
    position_row(rt, volume, A_AT, &lengths, 3)?;
    position_row(rt, volume, POST_AT, &lengths, 0)?;
    position_row(rt, volume, POST_AT, &lengths, 1)
}

// A block of three bytes that is repeated three times.
fn repeated_block(rt: &impl Print, volume: &[u8]) -> io::Result<()> {
    let lengths = [104u8, 0, 0, 0, 0, 0, 0, 0];
    position_row(rt, volume, B_AT, &lengths, 3)?;
    position_row(rt, volume, B_AT, &lengths, 4)?;
    position_row(rt, volume, B_AT, &lengths, 6)?;
    position_row(rt, volume, B_AT, &lengths, 10)?;
    position_row(rt, volume, B_AT, &lengths, 11)?;
    position_row(rt, volume, B_AT, &lengths, u64::MAX)
}

// What is refused, whatever position is asked.
fn refused(rt: &impl Print, volume: &[u8]) -> io::Result<()> {
    let lengths = [104u8, 0, 0, 0, 0, 0, 0, 0];
    position_row(rt, volume, FOLDER_AT, &lengths, 0)?;
    position_row(rt, volume, 80, &lengths, 0)?;
    position_row(rt, volume, BEYOND_AT, &lengths, 0)?;
    position_row(rt, volume, BEYOND_AT, &lengths, 9)?;
    position_row(rt, volume, OTHER_AT, &lengths, 0)
}

// Kept lengths of 0 name no volume, very many copies, and refusals of the place and of the lengths.
fn at_the_edges(rt: &impl Print, volume: &[u8]) -> io::Result<()> {
    let lengths = [104u8, 0, 0, 0, 0, 0, 0, 0];
    position_row(rt, volume, NOTHING_AT, &lengths, 2)?;
    position_row(rt, volume, COPIES_AT, &lengths, 9223372036854775807)?;
    position_row(rt, volume, COPIES_AT, &lengths, 9223372036854775808)?;
    position_row(rt, volume, volume.len(), &lengths, 0)?;
    position_row(rt, volume, 79, &lengths, 0)?;
    position_row(rt, volume, A_AT, b"", 0)?;
    position_row(rt, volume, A_AT, b"h\x00\x00\x00\x00\x00\x00", 0)?;
    position_row(rt, volume, FOLDER_AT, &[0u8; 9], 0)?;
    Ok(())
}

// Ranges with room enough, exactly enough and too little.
fn ranges(rt: &impl Print, volume: &[u8]) -> io::Result<()> {
    let lengths = [104u8, 0, 0, 0, 0, 0, 0, 0];
    runs_row(rt, volume, A_AT, &lengths, 0, 3, &mut [9u64; 6])?;
    runs_row(rt, volume, POST_AT, &lengths, 0, 3, &mut [9u64; 11])?;
    runs_row(rt, volume, B_AT, &lengths, 0, 14, &mut [9u64; 25])?;
    runs_row(rt, volume, B_AT, &lengths, 0, 14, &mut [9u64; 24])?;
    runs_row(rt, volume, B_AT, &lengths, 0, 14, &mut [9u64; 26])?;
    runs_row(rt, volume, B_AT, &lengths, 5, 10, &mut [9u64; 16])?;
    runs_row(rt, volume, B_AT, &lengths, 13, u64::MAX, &mut [9u64; 5])?;
    Ok(())
}

// Empty ranges, a file of holes, very many copies, and refusals that come before an empty range.
fn ranges_at_the_edges(rt: &impl Print, volume: &[u8]) -> io::Result<()> {
    let lengths = [104u8, 0, 0, 0, 0, 0, 0, 0];
    runs_row(rt, volume, B_AT, &lengths, 14, 20, &mut [9u64; 1])?;
    runs_row(rt, volume, B_AT, &lengths, 7, 7, &mut [9u64; 1])?;
    runs_row(rt, volume, B_AT, &lengths, 9, 4, &mut [9u64; 1])?;
    runs_row(rt, volume, NOTHING_AT, &lengths, 0, 3, &mut [9u64; 5])?;
    runs_row(
        rt,
        volume,
        COPIES_AT,
        &lengths,
        0,
        u64::MAX,
        &mut [9u64; 30],
    )?;
    runs_row(rt, volume, COPIES_AT, &lengths, 5, 8, &mut [9u64; 15])?;
    runs_row(rt, volume, BEYOND_AT, &lengths, 9, 9, &mut [9u64; 3])?;
    runs_row(rt, volume, FOLDER_AT, &lengths, 0, 0, &mut [9u64; 0])?;
    Ok(())
}

// Stored bytes of one of two volumes, the first if both have the number, and what is refused.
fn fetches<'a>(rt: &impl Print, gauge: &'a [u8], later: &'a [u8]) -> io::Result<()> {
    fetch_row(rt, gauge, later, 0, 97, 3)?;
    fetch_row(rt, gauge, later, 1, 110, 3)?;
    fetch_row(rt, later, gauge, 0, 97, 3)?;
    fetch_row(rt, gauge, later, 2, 97, 3)?;
    fetch_row(rt, gauge, later, 0, 1103, 0)?;
    fetch_row(rt, gauge, later, 0, 1103, 1)?;
    fetch_row(rt, gauge, later, 0, u64::MAX, u64::MAX)
}

// Both headers are checked first, the first one before the second.
fn fetches_refused<'a>(
    rt: &impl Print,
    gauge: &'a [u8],
    shorter: &'a [u8],
    damaged: &'a [u8],
) -> io::Result<()> {
    fetch_row(rt, gauge, shorter, 0, 1000, 0)?;
    fetch_row(rt, shorter, gauge, 0, 1000, 0)?;
    fetch_row(rt, gauge, damaged, 0, 97, 3)?;
    fetch_row(rt, b"", damaged, 0, 97, 3)
}

// A position and a range of what stands first in a volume.
fn both_lookups(rt: &(impl Print + Eprint + Files), name: &str, lengths: &[u8]) -> io::Result<()> {
    let mut buf = [0u8; 256];
    let n = load(rt, name.as_bytes(), &mut buf)?;
    let volume = &buf[..n];
    println!(rt; "{name}, {} bytes of lengths:", lengths.len())?;
    position_row(rt, volume, 80, lengths, 0)?;
    runs_row(rt, volume, 80, lengths, 0, 3, &mut [9u64; 3])?;
    Ok(())
}

// Which text of the block is the first that is bad, and where. The lengths come before that and the kind of the block after it.
fn bad_texts(rt: &(impl Print + Eprint + Files)) -> io::Result<()> {
    let lengths = [104u8, 0, 0, 0, 0, 0, 0, 0];
    both_lookups(rt, "link_bad.vol", &lengths)?;
    both_lookups(rt, "link_bad.vol", &[0u8; 9])?;
    both_lookups(rt, "target_bad.vol", &lengths)?;
    both_lookups(rt, "new_path_bad.vol", &lengths)?;
    Ok(())
}

// Bytes that are no text, and refusals before that of a text: a wrong checksum, and a table, which no lookup is made at.
fn no_bad_texts(rt: &(impl Print + Eprint + Files)) -> io::Result<()> {
    let lengths = [104u8, 0, 0, 0, 0, 0, 0, 0];
    both_lookups(rt, "xattr_value_not_text.vol", &lengths)?;
    both_lookups(rt, "folder_with_byte_ff.vol", &lengths)?;
    both_lookups(rt, "link_bad_with_wrong_sum.vol", &lengths)?;
    both_lookups(rt, "two_names_bad.vol", &lengths)?;
    Ok(())
}

fn main(rt: HostRuntime) -> io::Result<()> {
    let mut first = [0u8; 2048];
    let n = load(&rt, b"gauge.vol", &mut first)?;
    let mut second = [0u8; 256];
    let m = load(&rt, b"later.vol", &mut second)?;
    let mut third = [0u8; 256];
    let k = load(&rt, b"v.vol", &mut third)?;
    let mut fourth = [0u8; 256];
    let l = load(&rt, b"wrong_magic.vol", &mut fourth)?;
    stored_and_holes(&rt, &first[..n])?;
    repeated_block(&rt, &first[..n])?;
    refused(&rt, &first[..n])?;
    at_the_edges(&rt, &first[..n])?;
    ranges(&rt, &first[..n])?;
    ranges_at_the_edges(&rt, &first[..n])?;
    fetches(&rt, &first[..n], &second[..m])?;
    fetches_refused(&rt, &first[..n], &third[..k], &fourth[..l])?;
    bad_texts(&rt)?;
    no_bad_texts(&rt)?;
    Ok(())
}
