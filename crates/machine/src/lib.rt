// The commit machine (source 000), whole and alone: it knows no disk, and hands over what it asks of one as a disk operation. Its memory is lent beside it.
// The public face:
//   Machine, Kind                     the record: a kind beside the records of the three kinds, and the sync requests
//   Lent                              the memory that is lent to it
//   Machine::initial                  000's Init
//   Machine::to_ready                 a machine at work by any record, for a caller that hands one in
//   Machine::ask, Machine::ask_state  questions 1 and 2, with what was found in pending memory and without
//   the steps, in the order of 000's Step: write_back_journal_req, write_back_journal_resp, write_back_superblock_req_advance_log,
//   write_back_superblock_req_advance_location, write_back_superblock_resp, page_in_journal_req, page_in_journal_resp,
//   page_in_superblock_req, page_in_superblock_resp, finish_loading_superblock_phase, finish_loading_other_phase, freeze,
//   receive_frozen_loc, advance, replay, push_sync_req, pop_sync_req, no_op; and ask_again
//   send_range                        what a journal write does to lent memory
//   MachineStepped                    what a step answers: its disk operation and the next machine, or a no and the machine as it was
// Each of these steps asks every question. One named `.._asked` is a part of a step for a caller that has asked questions 1 and 2 itself: it
// asks the others and decides by value and on shared slices. Lent memory is then altered by functions that ask nothing; an add and the end of
// loading, after which nothing is asked of a disk, alter it themselves, after their last yes. Every function is total.
#![tactic(auto)]

mod commit_steps;
mod entry_steps;
mod freeze_steps;
mod journal_steps;
mod kinds;
mod loading_steps;
mod questions;
mod sending;
mod sync_steps;
mod whole_loading;
mod whole_working;

use loading::{LoadingOther, LoadingSuperblock};
use ready::Ready;
use refusal::Refusal;
pub use sending::send_range;
use superblock::DiskOp;
use tables::SyncTable;

#[derive(Clone, Copy, PartialEq, Eq)]
pub enum Kind {
    LoadingSuperblock,
    LoadingOther,
    Ready,
}

// What a kind lacks is no part of the state: the record beside it that is another kind's is not looked at.
#[derive(Clone, Copy)]
pub struct Machine {
    pub kind: Kind,
    pub superblocks: LoadingSuperblock,
    pub other: LoadingOther,
    pub ready: Ready,
    pub sync: SyncTable,
}

// What is lent to a machine: pending bytes and lengths, pieces read while loading, replay bytes and lengths. A step that alters some of it
// takes the slices themselves.
#[derive(Clone, Copy)]
pub struct Lent<'a> {
    pub bytes: &'a [u8],
    pub lens: &'a [u16],
    pub pieces: &'a [u8],
    pub rbytes: &'a [u8],
    pub rlens: &'a [u16],
}

#[derive(Clone, Copy)]
pub struct MachineStepped {
    pub answer: Result<DiskOp, Refusal>,
    pub machine: Machine,
}
