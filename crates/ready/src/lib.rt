// The machine at work (source 000, `Ready`): what it holds, what each of its steps asks, and what the step does to the record. The public
// face:
//   Ready, Frozen, Commit, Entries   the record, made of sub-records; a commit in flight, its id and its superblock are one enum
//   Ready::ok                        question 2's test of the record: 000's InvReady, and what the record adds
//   Ready::ask_x, Ready::x_next      a step's own questions (4, 6 and 8, in document 01's order) and its effect
//   JournalWrite                     the range that a journal write sends; a commit sends a superblock
// A step of the machine is more than what is here: it asks questions 1, 2 and 3 first, looks at lent memory, and moves sync requests. Bytes
// and entries lie in lent memory beside the record; what was found there comes as numbers. Every function is total; one that can be refused
// answers a `Result`.
#![tactic(auto, using(refusal::specs::Refusal::questions, laws::specs::Choice::tests), unfolding(laws::specs::Choice::and_then, laws::specs::Choice::ask, laws::specs::Choice::also, laws::specs::Choice::either, crate::specs::Inv::extent_ok, crate::specs::Inv::frozen_ok, crate::specs::Inv::received_ok, crate::specs::Inv::advance_log_ok, crate::specs::Inv::advance_location_ok, crate::specs::Inv::new_location_ok, crate::specs::Inv::new_ok, crate::specs::Inv::commit_ok, crate::specs::Inv::some_frozen_ok, crate::specs::Inv::inv_ok, crate::specs::Inv::entries_ok, crate::specs::Inv::ready_ok, crate::specs::State::sent, crate::specs::State::left, crate::specs::State::loaded, crate::specs::CommitSteps::may_commit, crate::specs::CommitSteps::ask_advance_log, crate::specs::CommitSteps::advanced_log, crate::specs::CommitSteps::advance_log, crate::specs::CommitSteps::ask_advance_location, crate::specs::CommitSteps::advanced_location, crate::specs::CommitSteps::advance_location, crate::specs::CommitSteps::log_committed, crate::specs::CommitSteps::location_committed, crate::specs::CommitSteps::write_back_superblock_resp_next, crate::specs::FreezeSteps::ask_freeze, crate::specs::FreezeSteps::freeze_next, crate::specs::FreezeSteps::ask_receive_frozen_loc, crate::specs::FreezeSteps::receive_frozen_loc_next, crate::specs::EntrySteps::ask_advance, crate::specs::EntrySteps::advance, crate::specs::EntrySteps::advance_next, crate::specs::EntrySteps::replay_next, crate::specs::JournalSteps::may_write, crate::specs::JournalSteps::ask_ids, crate::specs::JournalSteps::ask_room, crate::specs::JournalSteps::ask_write_back_journal_req, crate::specs::JournalSteps::write_back_journal_req, crate::specs::JournalSteps::written_entries, crate::specs::JournalSteps::written_frozen, crate::specs::JournalSteps::write_back_journal_req_next, crate::specs::JournalSteps::write_back_journal_resp_next))]

mod commit_steps;
mod counts;
mod entry_steps;
mod freeze_steps;
mod freezing;
mod in_flight;
mod inv;
mod journal_steps;
mod ring;
mod sums;
mod working;

use layout::Location;
use memory::Count;
use superblock::Superblock;
use tables::IdTable;

// The record of a machine at work, field by field as source 000 has it.
#[derive(Clone, Copy)]
pub struct Ready {
    pub superblock: Superblock,
    pub whichSuperblock: u64,
    pub writtenJournalLen: u64,
    pub frozen: Frozen,
    pub commit: Commit,
    pub entries: Entries,
    pub writes: IdTable,
}

// What a freeze has set aside: up to which position, and the table's new location once that is received.
#[derive(Clone, Copy)]
pub struct Frozen {
    pub isFrozen: bool,
    pub frozenJournalPosition: u64,
    pub frozenLoc: Option<Location>,
}

// A commit in flight: its kind, the id of its superblock write, and the superblock.
#[derive(Clone, Copy)]
pub enum Commit {
    CommitNone,
    CommitAdvanceLog { id: u64, new: Superblock },
    CommitAdvanceLocation { id: u64, new: Superblock },
}

// How many entries lie in lent memory: pending ones, of which the first are frozen, and replay entries, of which the first are taken.
#[derive(Clone, Copy)]
pub struct Entries {
    pub pending: u64,
    pub frozen: u64,
    pub replay: u64,
    pub taken: Count,
}

// The bytes of entries in pending memory, as they were found there: of the frozen ones, and of all.
#[derive(Clone, Copy)]
pub struct Bodies {
    pub frozen: u64,
    pub pending: u64,
}

// The range that goes to the disk: its first block, its blocks, and the blocks that are written then.
#[derive(Clone, Copy)]
pub struct JournalWrite {
    pub start: u64,
    pub blocks: u64,
    pub written: u64,
}
