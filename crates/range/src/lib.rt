// The range format (document 01, "Range"), for the crates that read and write it: its numbers here, its definitions and laws in specs/.
//   Count       a number of entries and of their bytes
//   blocks_of   the fewest blocks that hold the range of so many entries with so many bytes
#![tactic(auto)]

mod size;

use layout::Geometry;
pub use size::blocks_of;

// A block's bytes, as a number of places in lent memory.
pub const BLOCK_SIZE: usize = Geometry::BLOCK_SIZE as usize;

// The two counts, of two bytes each.
pub const HEAD_SIZE: usize = 4;

// The most entries of one range, and the most bytes of an entry.
pub const MOST_ENTRIES: usize = 1024;

pub const MOST_ENTRY_LENGTH: u16 = 255;

// A number of entries and of their bytes.
#[derive(Clone, Copy)]
pub struct Count {
    pub entries: u64,
    pub bytes: u64,
}
