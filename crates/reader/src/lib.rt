// The reader of one range (document 01, "Range") over lent bytes. The public face:
//   contents       what the bytes say of themselves: block count, entry count, the sum of the lengths
//   range_in_front the range that the bytes begin with: its blocks, its entries, their bytes
//   ask_range      question 7: do the bytes parse as a range?
//   scan_range     how many entries the range has, and how many bytes these have together
//   count          how many entries
//   entry          the body of an entry, as a part of the bytes; empty where entry_refusal answers a no
//   entry_refusal  questions 7 and 4 of an entry
//   list           where each body begins
// Every function is total: bytes that are no range are a `Refusal::Parse`.
#![tactic(auto, using(refusal::specs::Refusal::questions, laws::specs::Choice::tests), unfolding(laws::specs::Choice::and_then, laws::specs::Choice::ask, laws::specs::Choice::unless, crate::specs::Entry::ask_entry, crate::specs::Listing::ask_list))]

mod answer;
mod body;
mod head;
mod listing;
mod parse;
mod walk;

pub use answer::Contents;
pub use body::{entry, entry_refusal};
pub use listing::list;
pub use parse::{ask_range, contents, count, range_in_front, scan_range};
