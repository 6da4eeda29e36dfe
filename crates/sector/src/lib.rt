// A superblock as a sector, the 4,096 bytes in which it lies on the disk (specs/Sector.antt). The public face:
//   check_number   the check number of some numbers
//   write_sector   a superblock into a lent sector, where the lent bytes are 4,096
//   ask_sector     the questions of a sector: 10 another length or other contents, 11 a byte that should be zero, 12 a wrong check number
//   read_sector    the superblock that a sector holds, or the question that was answered no
//   superblock_of  the superblock that a sector's numbers make
//   select         which of two sectors a store would load from, and why
// Every function is total. Any five numbers make a superblock here: whether it is well formed is asked by the loader.
#![tactic(auto, using(refusal::specs::Refusal::questions, laws::specs::Choice::tests, crate::specs::Fields::five_fields, crate::specs::Fields::ask_length_is), unfolding(laws::specs::Choice::and_then, laws::specs::Choice::ask, laws::specs::Choice::also, laws::specs::Choice::unless, crate::specs::Sector::numbers_of, crate::specs::Sector::numbers_in, crate::specs::Selection::selection, crate::specs::Selection::by_counters))]

mod check;
mod fields;
mod read;
mod slots;
mod write;

pub use check::check_number;
pub use read::{ask_sector, read_sector, superblock_of};
pub use slots::select;
use superblock::Superblock;
pub use write::write_sector;

pub const SECTOR_SIZE: usize = 4096;
// Where the bodies begin, and a body's bytes.
pub const BODIES_START: usize = 64;

pub const BODY_SIZE: usize = 8;
// A superblock's numbers; the check number is one more body.
pub const NUMBER_COUNT: usize = 5;
// The contents: 6 fields, and the offset of each.
pub(crate) const CONTENTS: [u8; 14] = [6, 0, 64, 0, 72, 0, 80, 0, 88, 0, 96, 0, 104, 0];

// Which slot a store would load from: slot 2 where its counter follows slot 1's; else slot 1, for one of three reasons; none where a
// sector is refused, since no store loads from a single slot.
#[derive(Clone, Copy)]
pub enum Selection {
    SecondFollows,
    EqualCounters,
    FirstFollows,
    NeitherFollows,
    FirstRefused,
    SecondRefused,
    BothRefused,
}
