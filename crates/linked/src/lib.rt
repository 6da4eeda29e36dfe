// What programs in other languages link: the store's work over numbers and lent memory. The public face:
//   wokujani_range_blocks, wokujani_write_range                        pending entries as one range (crate writer)
//   wokujani_count_entries, wokujani_list_entries, wokujani_copy_entry one range and its entries (crate reader)
//   wokujani_scan, wokujani_unpack                                     ranges one after another (crate unpacker)
//   wokujani_write_sector, wokujani_read_sector                        a superblock as a sector (crate sector)
//   wokujani_record, wokujani_record_marked                            the record of a disk from its bytes (crate image)
//   wokujani_ask_superblock, wokujani_select                           is a superblock well formed; which of two is selected (crate superblock)
//   wokujani_front, wokujani_back                                      the two parts of an interval of the ring (crate interval)
//   wokujani_add, wokujani_write_journal, wokujani_replay              whole steps of a machine whose 16 numbers the caller keeps
//   wokujani_ask_journal, wokujani_count_pending, wokujani_count_left  questions 1 and 2's looks at lent memory
// Each answers 0 or the number of the question that was answered no, and writes its other answers through references; `wokujani_select`, which
// refuses nothing, answers a slot. Every function is total: whatever is passed, a refusal alters nothing, but that a record says the slot of its
// refusal, and leaves the blocks that it couldn't parse in `pieces`. A name stands in the whole program's names, so it begins with the store's.
#![tactic(auto, using(refusal::specs::Refusal::questions, laws::specs::Choice::tests, crate::specs::Bounds::bounds), unfolding(laws::specs::Choice::and_then, laws::specs::Choice::ask, laws::specs::Choice::unless, sector::specs::Sector::numbers_of, crate::specs::Numbers::second_id, crate::specs::Parts::first_of, crate::specs::Parts::blocks_of, crate::specs::Records::number_of, crate::specs::Records::slot_of, crate::specs::Records::which_after, crate::specs::Records::found_after, crate::specs::Records::size_after, crate::specs::State::machine_of, crate::specs::Superblocks::ask_superblock))]

mod listing;
mod looks;
mod parts;
mod ranges;
mod records;
mod sectors;
mod state;
mod steps;
mod superblocks;
mod writing;

pub use listing::{wokujani_copy_entry, wokujani_count_entries, wokujani_list_entries};
pub use looks::{wokujani_ask_journal, wokujani_count_left, wokujani_count_pending};
pub use parts::{wokujani_back, wokujani_front};
pub use ranges::{wokujani_scan, wokujani_unpack};
pub use records::{wokujani_record, wokujani_record_marked};
pub use sectors::{wokujani_read_sector, wokujani_write_sector};
pub use steps::{wokujani_add, wokujani_replay, wokujani_write_journal};
pub use superblocks::{wokujani_ask_superblock, wokujani_select};
pub use writing::{wokujani_range_blocks, wokujani_write_range};
