// When a walk over a volume fills the tables of crc32. A single call lends none: to fill them would take longer than they save.

// Internal: the shortest volume for which a walk fills the tables. In a shorter one of small blocks they save less time than
// filling them takes.
pub const FILL_FROM: usize = 1280;
