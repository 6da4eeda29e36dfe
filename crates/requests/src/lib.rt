// What waits at a disk, apart from its record: two superblock slots, and tables of requests. The public face:
//   BySlot                                     what the disk has twice, once for each slot, found and put by the slot's number;
//   Slots, SuperblockReads, SuperblockWrites   what the slots hold, the reads of them that wait, the writes of them in flight
//   ask_recv_.. , read_received, write_received   what a request asks when it is received, and the table with it
//   ask_ack_.. , read_acked, interval_left        what an answer asks, and the table without it
//   ask_land, slots_landed                        what a landing asks, and the slots after it
// Each decides by value, after questions 1 and 2. Every function is total.
#![tactic(auto, using(refusal::specs::Refusal::questions, laws::specs::Choice::tests), unfolding(laws::specs::Choice::and_then, laws::specs::Choice::ask, laws::specs::Choice::also, laws::specs::Choice::either, crate::specs::Slots::ask_which, crate::specs::Slots::slot_at, crate::specs::Slots::put_slot, crate::specs::Slots::is_write, crate::specs::Slots::slot_of, crate::specs::Receive::ask_recv_read_superblock, crate::specs::Receive::read_received, crate::specs::Receive::ask_recv_read_journal, crate::specs::Receive::ask_recv_write_superblock, crate::specs::Receive::rows_for, crate::specs::Receive::is_new, crate::specs::Receive::ask_new_ids, crate::specs::Receive::second_fits, crate::specs::Receive::ask_rows, crate::specs::Receive::ask_recv_write_journal, crate::specs::Receive::added_part, crate::specs::Receive::write_received, crate::specs::Acknowledge::ask_waiting, crate::specs::Acknowledge::may_read, crate::specs::Acknowledge::read_from, crate::specs::Acknowledge::ask_ack_read_superblock, crate::specs::Acknowledge::holds_read, crate::specs::Acknowledge::ask_read_superblock_as, crate::specs::Acknowledge::read_acked, crate::specs::Acknowledge::held_interval, crate::specs::Acknowledge::ask_ack_read_journal, crate::specs::Acknowledge::landed, crate::specs::Acknowledge::ask_ack_write_superblock, crate::specs::Acknowledge::ask_ack_write_journal, crate::specs::Acknowledge::interval_left, crate::specs::Landing::in_flight, crate::specs::Landing::landing_on, crate::specs::Landing::ask_land, crate::specs::Landing::slots_landed))]

mod acknowledge;
mod by_slot;
mod landing;
mod limits;
mod receive;

pub use acknowledge::{
    ask_ack_read_journal, ask_ack_read_superblock, ask_ack_write_journal, ask_ack_write_superblock,
    ask_read_superblock_as, held_interval, interval_left, read_acked, read_from,
};
pub use landing::{ask_land, slots_landed};
pub use limits::{MOST_JOURNAL_READS, MOST_JOURNAL_WRITES, MOST_SUPERBLOCK_READS};
pub use receive::{
    ask_recv_read_journal, ask_recv_read_superblock, ask_recv_write_journal,
    ask_recv_write_superblock, read_received, write_received,
};
use superblock::Superblock;
use tables::IdTable;

// What the disk has twice, once for each slot.
#[derive(Clone, Copy)]
pub struct BySlot<T> {
    pub first: T,
    pub second: T,
}

// A write of a superblock in flight: its id and what it writes.
#[derive(Clone, Copy, PartialEq, Eq)]
pub struct SuperblockWrite {
    pub id: u64,
    pub superblock: Superblock,
}

// What the slot holds,
pub type Slots = BySlot<Option<Superblock>>;

// the reads of it that wait,
pub type SuperblockReads = BySlot<IdTable>;

// and the write of it, if one is in flight.
pub type SuperblockWrites = BySlot<Option<SuperblockWrite>>;
