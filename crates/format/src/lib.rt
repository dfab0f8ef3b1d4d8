// What an HDRFS volume is: the layouts, the rules inside blocks and between them, images and readings.
//
// The types here and in new_block are those of the fields that code and definitions share, kind has the kinds of block; specs/ has the
// definitions: Layout, Extents, Blocks, Headers and Readings, in this order, and then Asked and Kinds, which say what the types of
// new_block and kind stand for. Every other crate's contracts rest on them.
#![tactic(auto)]

pub mod kind;
pub mod new_block;

// A position in a file, counted in bytes. A counter of its own kind: it never stands in for a physical offset.
#[derive(Clone, Copy, Debug, PartialEq, Eq, PartialOrd, Ord)]
pub struct Logical(pub u64);

// An offset in a volume, counted in bytes.
#[derive(Clone, Copy, Debug, PartialEq, Eq, PartialOrd, Ord)]
pub struct Physical(pub u64);

// One extent of a regular file, its eight fields in layout order.
#[derive(Clone, Copy, Debug, PartialEq, Eq)]
pub struct Extent {
    pub volume: u64,
    pub start: Physical,
    pub size: u64,
    pub multiplicity: u8,
    pub count: u64,
    pub pre: u64,
    pub post: u64,
    pub logical: Logical,
}
