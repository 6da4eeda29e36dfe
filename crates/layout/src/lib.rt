// Where things lie on the disk (source 003). The public face:
//   Geometry                 N and T, the fixed sizes and addresses, question 1
//   Location                 a byte address and a length; which locations are valid, overlap, lie within one another
//   the journal's locations  of a range, of the front and the back of a circular range; positions on the ring
// Every function is total. One that needs a geometry or a bounded argument answers the value, or the refusal of question 1 or 4.
// `Location::valid_table` is the bare test, exact for any geometry.
#![tactic(auto, using(refusal::specs::Refusal::questions, laws::specs::Choice::tests, crate::specs::Laws::circular_asked, crate::specs::Laws::range_asked, crate::specs::Geometry::geometry_asked), unfolding(laws::specs::Choice::and_then, laws::specs::Choice::ask, laws::specs::Choice::also, laws::specs::Choice::either, crate::specs::Journal::ask_circular, crate::specs::Journal::ask_range, crate::specs::Journal::ask_point, crate::specs::Journal::ask_journal_location, crate::specs::Journal::journal_front_location, crate::specs::Journal::journal_back_location, crate::specs::Journal::journal_pos_add, crate::specs::Geometry::ask_geometry, crate::specs::Geometry::geometry_ok, crate::specs::Geometry::other_indirection_table_addr, crate::specs::Location::valid_indirection_table_addr, crate::specs::Location::whole_blocks, crate::specs::Location::valid_indirection_table_location, crate::specs::Location::same_location, crate::specs::Location::valid_superblock1_location, crate::specs::Location::valid_superblock2_location, crate::specs::Location::valid_superblock_location, crate::specs::Location::overlap, crate::specs::Location::location_sub))]

mod addresses;
mod journal;
mod locations;

pub use journal::{
    ask_circular, ask_journal_location, journal_back_location, journal_block_idx,
    journal_front_location, journal_pos_add, journal_range_location,
    loc_contained_in_circular_journal_range, loc_disjoint_from_circular_journal_range,
};

// The disk's geometry: any two numbers make one; question 1 asks whether they are in range.
#[derive(Clone, Copy)]
pub struct Geometry {
    // N, the number of journal blocks, 1 to 4,096.
    pub blocks: u64,
    // T, the greatest length of an indirection table in bytes, 1 to 16,777,216.
    pub table: u64,
}

// A byte address and a length. Any two 64-bit numbers make one.
#[derive(Clone, Copy, PartialEq, Eq)]
pub struct Location {
    pub addr: u64,
    pub len: u64,
}
