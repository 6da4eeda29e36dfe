// Entries in lent memory: bytes back to back from the front, lengths in order, and a count. The public face:
//   Limits                          how much pending memory holds; question 1 of its lent lengths, question 8
//   Count, PendingCount             entries and their bytes; those of the frozen pending entries, and of all
//   count_pending                   questions 1 and 2 of pending memory, and what it holds: the frozen entries, and all
//   count_given                     question 4 of entries that a caller brings, and what they are
//   count_added                     the same of an add: 13 where one is of zeros only
//   append_entries, append          entries come behind the pending ones
//   move_front, take_front          the first pending entries leave, the others move to the front
//   ask_replay_lent, count_left     questions 1 and 2 of replay memory, and what is left of it
//   is_next, next_of_replay         are the given entries the next ones? Replay memory stays as it is, and what is taken of it is counted
// Every function is total. One that can be refused answers a `Result`. `append_entries` and `move_front` ask nothing: a step that has asked
// calls them. `append`, `take_front` and `next_of_replay` ask everything first, and on a refusal lent memory is as it was. Each question looks
// at a length once; 13 looks at them once more.
#![tactic(auto, using(refusal::specs::Refusal::questions, laws::specs::Choice::tests), unfolding(laws::specs::Choice::and_then, laws::specs::Choice::ask, laws::specs::Choice::also, crate::specs::Given::ask_given, crate::specs::Given::ask_added, crate::specs::Limits::pending_lent, crate::specs::Limits::ask_pending_lent, crate::specs::Limits::ask_room, crate::specs::Replay::replay_lent, crate::specs::Replay::ask_replay_lent, crate::specs::Replay::ask_replay, crate::specs::Replay::is_next, crate::specs::Replay::ask_next, crate::specs::Replay::next_answer))]

mod blank;
mod given;
mod pending;
mod replay;
mod room;

pub use given::{count_added, count_given};
pub use pending::{append, append_entries, count_pending, move_front, take_front};
pub use range::Count;
pub use replay::{ask_replay_lent, count_left, is_next, next_of_replay};

// What pending memory holds: its frozen entries, which come first, and all of them.
#[derive(Clone, Copy)]
pub struct PendingCount {
    pub frozen: Count,
    pub all: Count,
}

// How much pending memory holds: its lent slices have exactly these lengths.
#[derive(Clone, Copy)]
pub struct Limits {
    pub entries: u64,
    pub bytes: u64,
}
