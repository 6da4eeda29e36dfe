// The crash of a disk (source 001's Crash): no request is left, and the blocks and marks that a journal write in flight covers are taken from
// a lent picture of N blocks and N marks; the others stay. The public face:
//   crash            the whole operation: its questions, then the lent memory
//   crash_in_place   the same with the disk's own blocks and marks for the picture, which alters none of them
//   no_requests      the disk that a crash leaves
//   crash_memory     what it does to blocks and marks; asks nothing, for a step that has asked
// Every function is total. A refusal hands the disk back and alters no lent byte.
#![tactic(auto, using(refusal::specs::Refusal::questions, laws::specs::Choice::tests), unfolding(laws::specs::Choice::and_then, laws::specs::Choice::unless, disk::specs::Disk::answered_with, crate::specs::Whole::ask_crash))]

mod memory;
mod whole;

pub use memory::crash_memory;
pub use whole::{crash, crash_in_place, no_requests};
