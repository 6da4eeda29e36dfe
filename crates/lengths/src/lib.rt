// The lengths of entries in lent memory. The public face:
//   entries_held   are the entries from one place up to another there, each of an allowed length, and do their bytes fit? How many bytes, if so
// It is the one test of entries in memory, it asks once, and it answers the sum that it made.
#![tactic(auto, using(laws::specs::Choice::tests, laws::specs::Choice::and_also), unfolding(laws::specs::Choice::also, crate::specs::Held::held_ok, crate::specs::Held::held_of, crate::specs::Entries::entries_ok, crate::specs::Entries::entries_held, range::specs::Form::ok_length))]

mod entries;
mod walk;

pub use entries::entries_held;
