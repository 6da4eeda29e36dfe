// The disk (source 001, but for the crash): two superblock slots and the requests that wait; N blocks and N marks are lent beside it. The
// public face:
//   Disk                                           the record; `idle`, one without requests
//   ok, ask_state, ask, ask_with_buffer            question 2, and questions 1 and 2
//   recv_read_superblock, recv_read_journal        a request is received: a read,
//   recv_write_superblock, recv_write_journal      or a write
//   ack_read_superblock, ack_read_journal          a request is answered: a read, whole or damaged,
//   ack_write_superblock, ack_write_journal        or a write
//   land                                           a superblock write in flight lands
//   step                                           one step over the whole disk operation type
//   Stepped                                        what they answer, beside the disk after it: a value, or a no and the disk as it was;
//   DiskStepped, SuperblockAcked, JournalAcked     no value, a superblock or damaged, the interval that was read
//   refused                                        a no, for a caller that has asked itself, in the caller's own words
// Each of these operations asks every question. One named `.._asked` is a part of an operation for a step that has asked questions 1 and 2
// itself: it asks the others, decides by value and on shared slices, and leaves lent memory to journal's `write_blocks`, `set_marks` and
// `copy_blocks`; `decide_asked` is such a part for any operation. Every function is total.
#![tactic(auto, using(refusal::specs::Refusal::questions, laws::specs::Choice::tests), unfolding(laws::specs::Choice::and_then, laws::specs::Choice::ask, laws::specs::Choice::also, laws::specs::Choice::unless, crate::specs::Disk::answered_with, crate::specs::Questions::reads_ok, crate::specs::Questions::intervals_ok, crate::specs::Questions::disk_ok, crate::specs::Questions::ask_state, crate::specs::Questions::ask_disk, crate::specs::Questions::ask_disk_out, crate::specs::Next::recv_read_superblock_next, crate::specs::Next::recv_read_journal_next, crate::specs::Next::recv_write_superblock_next, crate::specs::Next::recv_write_journal_next, crate::specs::Next::ack_read_superblock_next, crate::specs::Next::ack_read_journal_next, crate::specs::Next::ack_write_superblock_next, crate::specs::Next::ack_write_journal_next, crate::specs::Next::land_next, crate::specs::Memory::ask_new_blocks, crate::specs::Memory::read_out))]

mod acknowledge;
mod answers;
mod landing;
mod memory;
mod operation;
mod questions;
mod receive;
mod whole;

use interval::JournalInterval;
use refusal::Refusal;
use requests::{Slots, SuperblockReads, SuperblockWrites};
use superblock::{JournalRead, Superblock};
use tables::IntervalTable;

// Two slots, and the requests that wait. Its blocks and marks are lent beside it.
#[derive(Clone, Copy)]
pub struct Disk {
    pub slots: Slots,
    pub superblockReads: SuperblockReads,
    pub superblockWrites: SuperblockWrites,
    pub journalReads: IntervalTable,
    pub journalWrites: IntervalTable,
}

// What an operation answers, and the disk after it: after a no, the disk as it was. A disk's own no is a `Refusal`.
#[derive(Clone, Copy)]
pub struct Stepped<T, E> {
    pub answer: Result<T, E>,
    pub disk: Disk,
}

pub type DiskStepped = Stepped<(), Refusal>;

pub type SuperblockAcked = Stepped<Option<Superblock>, Refusal>;

pub type JournalAcked = Stepped<JournalInterval, Refusal>;

// What an operation touches of lent blocks: a journal write sets some, a journal read's answer copies some, and no other touches any.
#[derive(Clone, Copy)]
pub(crate) enum Touched {
    Written {
        id1: u64,
        id2: Option<u64>,
        interval: JournalInterval,
    },
    Read {
        id: u64,
        journal: JournalRead,
    },
    Nothing,
}
