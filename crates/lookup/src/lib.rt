// From a position of a file to the stored byte: position lookup, range queries and fetching stored bytes.
//
// Public calls: position and runs in `query`, fetch_refusal and fetch in `bytes`. The converter calls them. `faults` has what
// a lookup is refused for, in order, and `presence` the tests of the volumes and ranges that a file's extents name.
// Each checks one block or two headers, so it lends no tables for their checksums.
#![tactic(auto)]

pub mod bytes;
mod faults;
mod presence;
pub mod query;

use format::Physical;

// A stored byte: the volume that holds it, and where.
#[derive(Clone, Copy, Debug)]
pub struct Stored {
    pub volume: u64,
    pub offset: Physical,
}

// What stands at a position.
#[derive(Clone, Copy, Debug)]
pub enum Position {
    Hole,
    PastEnd,
    Stored(Stored),
}
