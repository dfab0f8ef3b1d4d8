// Reading and writing an HDRFS volume: its header, its blocks by bookmark, and the whole-volume check.
//
// Public calls: read_header, file_system_id, previous_hash, Bookmark::read, check; write_header, and Bookmark::append, which appends a
// block of any kind. Most answer a Result, whose error is the refusal; that of check says also where the check stopped, and how many
// blocks it had passed. file_system_id and previous_hash answer a part of the volume, which is empty where the header is refused.
// `tables` are those of crc32: filled once by a walk and lent to the header and every block. A single call lends none.
#![tactic(auto)]

pub mod checking;
pub mod heading;
pub mod reading;
pub mod writing;

use block::Block;
use refusal::Refusal;

// A place in a volume at which a block is read or written, with what is known there: a bookmark.
#[derive(Clone, Copy, Debug)]
pub struct Bookmark {
    pub offset: usize,
    // Whether a link table is due here.
    pub due: bool,
    // The last time in the volume so far, if there is one.
    pub last: Option<u64>,
    // How many blocks stand before it.
    pub number: u64,
}

// What a sound header gives.
#[derive(Clone, Copy, Debug)]
pub struct HeaderRead {
    pub sequence: u64,
    pub next: Bookmark,
}

// A block that was read, its own number, and the bookmark after it.
#[derive(Clone, Copy)]
pub struct Found {
    pub block: Block,
    pub number: u64,
    pub next: Bookmark,
}

// A volume that is accepted, and its end bookmark, whose number is that of the blocks after the header, the table
// included.
#[derive(Clone, Copy, Debug)]
pub struct Accepted {
    pub sequence: u64,
    pub end: Bookmark,
}

// A volume that is refused: where the header or block at fault begins, and the blocks accepted before it.
#[derive(Clone, Copy, Debug)]
pub struct Rejected {
    pub refusal: Refusal,
    pub offset: usize,
    pub blocks: u64,
}
