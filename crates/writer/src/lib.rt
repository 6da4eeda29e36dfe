// The writer of a range (document 01, "Range"): a run of entries in lent memory becomes one range. The public face:
//   range_blocks   how many blocks the range of the first n entries takes
//   put_range      the range of entries that were counted, into the journal's ring: a step that has asked calls it
//   write_range    asks, and writes the range into the journal's ring, from a block on, in one part or, where it goes round, in two
// All are total. `Refusal::Sizes` is a journal that isn't 1 to 4,096 whole blocks, `Argument` a start outside it or entries that make no
// range, `Room` a range of more blocks than the journal has.
#![tactic(auto, using(refusal::specs::Refusal::questions, laws::specs::Choice::tests), unfolding(laws::specs::Choice::and_then, laws::specs::Choice::ask, laws::specs::Choice::also, laws::specs::Choice::unless, laws::specs::Ring::wrap, crate::specs::Entries::ask_entries, crate::specs::Entries::range_ok, crate::specs::Ring::journal_ok, crate::specs::Ring::ask_write, crate::specs::Ring::put_ok, crate::specs::Ring::put_range))]

mod ring;
mod size;

pub use ring::{put_range, write_range};
pub use size::range_blocks;
