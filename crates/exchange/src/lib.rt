// The calls for programs in other languages, as include/hdrfs.h declares them: numbers and byte slices in, numbers out.
//
// Each turns the answer of a public call of `volume`, `links`, `extent`, `lookup`, `sha256`, `chain`, `repair` or `tree` into numbers, by a
// definition in specs/. The structs below have the fields of those in the header file, in its order; wherever a refusal can come, it has
// three of them. These stand in each struct, and each conversion fills them, since the header file has no struct for a refusal alone. The
// calls of `digesting` have no struct: a digest goes to lent bytes, and so does a state, and the refusal is the answer.
// A bookmark crosses as five numbers, and an answer as a struct of numbers: the C interface has no Option, no Result and no enum.
// `checking` has the check of a whole volume, `walking` the header, the blocks, the links and the extents one by one, `places`
// positions and runs, `sources` the fetching of bytes, `writing` the writing of a header and the appends, `digesting` SHA-256,
// `pairs` the check of a pair of volumes, `repairs` the repair of a volume whose end is cut off, and `trees` the listing of a tree.
#![tactic(auto)]

mod blocks;
pub mod checking;
pub mod digesting;
mod marks;
pub mod pairs;
pub mod places;
pub mod repairs;
pub mod sources;
pub mod trees;
pub mod walking;
pub mod writing;

// What the check of a whole volume answers: hdrfs_checked.
#[repr(C)]
#[derive(Clone, Copy, Default)]
pub struct CheckNumbers {
    pub refusal: u64,
    pub text: u64,
    pub start: u64,
    pub sequence: u64,
    pub blocks: u64,
    pub offset: u64,
    pub timed: u64,
    pub time: u64,
}

// What reading a header answers: hdrfs_heading.
#[repr(C)]
#[derive(Clone, Copy, Default)]
pub struct HeadingNumbers {
    pub refusal: u64,
    pub text: u64,
    pub start: u64,
    pub sequence: u64,
    pub next: u64,
    pub due: u64,
    pub id: u64,
    pub previous: u64,
}

// What reading a block answers: hdrfs_block.
#[repr(C)]
#[derive(Clone, Copy, Default)]
pub struct BlockNumbers {
    pub refusal: u64,
    pub text: u64,
    pub start: u64,
    pub end: u64,
    pub id: u64,
    pub number: u64,
    pub next: u64,
    pub due: u64,
    pub timed: u64,
    pub last: u64,
    pub nextnumber: u64,
    pub time: u64,
    pub inode: u64,
    pub child: u64,
    pub parent: u64,
    pub mode: u64,
    pub uid: u64,
    pub gid: u64,
    pub atime: u64,
    pub mtime: u64,
    pub ctime: u64,
    pub btime: u64,
    pub size: u64,
    pub count: u64,
    pub part: u64,
    pub partlen: u64,
    pub second: u64,
    pub secondlen: u64,
}

// What reading a link of a table answers: hdrfs_link_entry.
#[repr(C)]
#[derive(Clone, Copy, Default)]
pub struct LinkNumbers {
    pub missing: u64,
    pub child: u64,
    pub parent: u64,
    pub name: u64,
    pub namelen: u64,
    pub next: u64,
}

// What reading an extent of a file answers: hdrfs_extent_entry.
#[repr(C)]
#[derive(Clone, Copy)]
pub struct ExtentNumbers {
    pub volume: u64,
    pub start: u64,
    pub size: u64,
    pub multiplicity: u64,
    pub count: u64,
    pub pre: u64,
    pub post: u64,
    pub logical: u64,
}

// What looking up a position answers: hdrfs_place.
#[repr(C)]
#[derive(Clone, Copy, Default)]
pub struct PlaceNumbers {
    pub refusal: u64,
    pub text: u64,
    pub start: u64,
    pub kind: u64,
    pub volume: u64,
    pub offset: u64,
}

// What a range query answers beside the runs: hdrfs_run_count.
#[repr(C)]
#[derive(Clone, Copy, Default)]
pub struct RunCountNumbers {
    pub refusal: u64,
    pub text: u64,
    pub start: u64,
    pub count: u64,
}

// Which of two volumes has the bytes: hdrfs_source.
#[repr(C)]
#[derive(Clone, Copy, Default)]
pub struct SourceNumbers {
    pub refusal: u64,
    pub text: u64,
    pub start: u64,
    pub which: u64,
}

// What writing a header or appending a block answers, the bookmark after it: hdrfs_written.
#[repr(C)]
#[derive(Clone, Copy, Default)]
pub struct MarkNumbers {
    pub refusal: u64,
    pub text: u64,
    pub start: u64,
    pub next: u64,
    pub due: u64,
    pub timed: u64,
    pub last: u64,
    pub number: u64,
}

// What the check of a pair of volumes answers: hdrfs_paired.
#[repr(C)]
#[derive(Clone, Copy, Default)]
pub struct PairNumbers {
    pub refusal: u64,
    pub text: u64,
    pub start: u64,
    pub which: u64,
    pub offset: u64,
}

// What repairing a volume answers: hdrfs_repaired.
#[repr(C)]
#[derive(Clone, Copy, Default)]
pub struct RepairNumbers {
    pub refusal: u64,
    pub text: u64,
    pub start: u64,
    pub length: u64,
}

// What listing the tree of a link table answers beside the lines: hdrfs_lines.
#[repr(C)]
#[derive(Clone, Copy, Default)]
pub struct LineNumbers {
    pub refusal: u64,
    pub text: u64,
    pub start: u64,
    pub lines: u64,
}
