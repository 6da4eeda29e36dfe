// Machine and disk together: question 2 of a system, beside that of each. The public face:
//   joined      are both slots well formed, does the machine await exactly what the disk holds, do writes in flight overlap neither each
//               other nor the selected interval?
//   Awaited     what a machine awaits, in the form in which the disk holds it; it is made and compared here, and laws elsewhere speak of it
// Every function is total.
#![tactic(auto, using(laws::specs::Choice::tests), unfolding(laws::specs::Choice::also, crate::specs::Apart::slots_wf, crate::specs::Apart::writes_clear, crate::specs::Awaited::pieces_awaited, crate::specs::Awaited::commit_writes, crate::specs::Awaited::superblocks_await, crate::specs::Awaited::other_awaits, crate::specs::Awaited::ready_awaits, crate::specs::Awaited::awaited_by, crate::specs::Held::same_tables, crate::specs::Held::same_reads, crate::specs::Held::same_interval, crate::specs::Held::read_ids, crate::specs::Held::same_journal_reads, crate::specs::Held::same_writes, crate::specs::Joined::joined_by, crate::specs::Joined::joined_ok))]

mod apart;
mod awaits;
mod held;
mod question;

use interval::JournalInterval;
pub use question::joined;
use requests::{SuperblockReads, SuperblockWrites};
use tables::IdTable;

// A journal read under its id, of its interval.
#[derive(Clone, Copy)]
pub struct AwaitedRead {
    pub id: u64,
    pub interval: JournalInterval,
}

// The reads of the two pieces of the journal, if they are awaited.
#[derive(Clone, Copy)]
pub struct AwaitedReads {
    pub front: Option<AwaitedRead>,
    pub back: Option<AwaitedRead>,
}

// All that is awaited: reads and writes of both slots, journal reads, journal writes.
#[derive(Clone, Copy)]
pub struct Awaited {
    pub superblockReads: SuperblockReads,
    pub journalReads: AwaitedReads,
    pub superblockWrites: SuperblockWrites,
    pub journalWrites: IdTable,
}
