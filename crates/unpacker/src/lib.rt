// Ranges one after another, as an interval of the journal has them (document 01, "Range"). The public face:
//   scan     how many entries all ranges have, and how many bytes these have together
//   unpack   the same, and the entries into replay memory: bodies back to back, lengths in order
// Both are total: bytes that aren't ranges to the last one are a `Refusal::Parse`.
#![tactic(auto, using(refusal::specs::Refusal::questions, laws::specs::Choice::tests), unfolding(laws::specs::Choice::and_then, laws::specs::Choice::ask, laws::specs::Choice::also, laws::specs::Choice::unless, crate::specs::Unpack::ask_unpack))]

mod ranges;
mod replay;

pub use ranges::scan;
pub use replay::unpack;
