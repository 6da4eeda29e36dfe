// Arrays with a count, by value: the source's sets and maps of request ids. The public face:
//   find, member, distinct, within   over ids in a slice: the place of one, is it there, do all differ, is each one of the others
//   IdTable         ids: `set<ReqId>`
//   IntervalTable   ids with an interval each: `map<ReqId, JournalInterval>`
//   SyncTable       sync requests with a state each: `map<uint64, SyncReqStatus>`
//   same_ids        do two tables hold the same ids?
// One size serves several limits: the limit is an argument. Order within a table has no meaning, and the last one takes a removed one's
// place. Every function is total and asks nothing of its caller: a full table, or a place that isn't in use, leaves the table as it is.
#![tactic(auto, using(refusal::specs::Refusal::questions, laws::specs::Choice::tests), unfolding(laws::specs::Choice::and_then, laws::specs::Choice::ask, laws::specs::Choice::also, crate::specs::Rows::ask_add, crate::specs::Rows::ask_join, crate::specs::Rows::in_use, crate::specs::Rows::added_row, crate::specs::Rows::removed_row, crate::specs::IdTable::added_id, crate::specs::IdTable::joined_id, crate::specs::IdTable::removed_id, crate::specs::IntervalTable::added_interval, crate::specs::IntervalTable::removed_interval, crate::specs::SyncTable::added_sync, crate::specs::SyncTable::removed_sync, crate::specs::SyncTable::moved))]

mod id_table;
mod ids;
mod interval_table;
mod sync_table;

pub use ids::{distinct, find, member, within};
use interval::JournalInterval;
pub use interval_table::same_ids;

// The first `count` ids are in use.
#[derive(Clone, Copy)]
pub struct IdTable {
    pub ids: [u64; 16],
    pub count: usize,
}

// The first `count` places are in use. A state is 1, 2 or 3.
#[derive(Clone, Copy)]
pub struct SyncTable {
    pub ids: [u64; 32],
    pub states: [u8; 32],
    pub count: usize,
}

// The first `count` places are in use.
#[derive(Clone, Copy)]
pub struct IntervalTable {
    pub ids: [u64; 16],
    pub intervals: [JournalInterval; 16],
    pub count: usize,
}
