// How many requests of each kind may wait at a disk: superblock reads of each slot, journal reads, journal writes.
pub const MOST_SUPERBLOCK_READS: usize = 8;

pub const MOST_JOURNAL_READS: usize = 8;

pub const MOST_JOURNAL_WRITES: usize = 16;
