// The store: the machine (source 000) and the disk (source 001) together (source 004). The public face:
//   Store                              the state, by value; its memory is lent beside it
//   Lent, LentMut                      the memory that is lent to it: to look at, and to alter
//   Store::initial                     the machine at Init, and a disk without requests
//   Store::ask, Store::ask_state       questions 1 and 2, of all that a call is handed; what was found in pending memory
//   SteppedStore, StoreStepped         what a step answers: the disk operation that was done, beside the next store, or a no, a refusal, beside the store as it was
//   Store::refused                     a no, for a caller that has asked itself, in the caller's own words
//   the methods named `.._asked`       parts of steps, in the names and the order of 000's Step; no step by itself
// A part is for a caller that has asked questions 1 and 2 itself, as crates steps (one call for each step) and calls (one call over an enum of
// all) do. It asks the machine's other questions, then the disk's, and alters lent memory after the last yes. Every function is total.
#![tactic(auto, using(refusal::specs::Refusal::questions, crate::specs::Laws::Answers::both_is, crate::specs::Laws::Answers::both_zero), unfolding(laws::specs::Choice::and_then, laws::specs::Choice::ask, crate::specs::Lent::ask_rest, crate::specs::Lent::ask_store))]

mod both;
mod lending;
mod plain;
mod questions;
mod with_memory;

use disk::Disk;
pub use lending::{Lent, LentMut};
use machine::Machine;
use refusal::Refusal;
use superblock::DiskOp;

// Machine and disk, by value. Their memory is lent beside it.
#[derive(Clone, Copy)]
pub struct Store {
    pub machine: Machine,
    pub disk: Disk,
}

// A step's answer, beside the store after it. A store's own no is a `Refusal`.
#[derive(Clone, Copy)]
pub struct SteppedStore<E> {
    pub answer: Result<DiskOp, E>,
    pub store: Store,
}

pub type StoreStepped = SteppedStore<Refusal>;
