// The limits of a volume and of a table.

// The most bytes that a volume may have.
pub const VOLUME_LIMIT: usize = 16777216;

// Blocks begin after the header.
pub const HEADER_LEN: usize = 80;

// The most links that a table may have.
pub const MAX_LINKS: u64 = 4096;
