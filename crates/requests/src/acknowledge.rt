// What the disk does when it answers a request (001's AckRead and AckWrite), after questions 1 and 2. Each function decides by value and
// shared slices and asks the other questions; none is a step by itself.
ghost use Rattle.std.specs.Prelude.{◌≡◌};
ghost use Rattle.refusal.specs.Refusal.{asked};
ghost use Rattle.requests.specs.Acknowledge.{ask_waiting, may_read, read_from, ask_ack_read_superblock, holds_read, ask_read_superblock_as, read_acked, held_interval, ask_ack_read_journal, landed, ask_ack_write_superblock, ask_ack_write_journal, interval_left};

use super::by_slot::{ask_which, is_write};
use super::{Slots, SuperblockReads, SuperblockWrite, SuperblockWrites};
use interval::JournalInterval;
use refusal::Refusal;
use superblock::Superblock;
use tables::IntervalTable;

// Questions 4 and 5 of a superblock read's answer: does the id wait in that slot's table?
fn ask_waiting(reads: SuperblockReads, which: u64, id: u64) -> Result<(), Refusal>
    ensures { result ≡ asked (ask_waiting reads which id) }
{
    ask_which(which)?;
    let table = reads.at(which);
    if table.has(id) {
        return Ok(());
    }
    Err(Refusal::Id)
}

// May the slot be read so? Damaged always, whole where it holds a superblock.
fn may_read(whole: bool, slot: Option<Superblock>) -> bool
    ensures { result ≡ may_read whole slot }
{
    slot.is_some() || !whole
}

// What such a read brings.
pub fn read_from(whole: bool, slot: Option<Superblock>) -> Option<Superblock>
    ensures { result ≡ read_from whole slot }
{
    if whole {
        return slot;
    }
    None
}

// Questions 4, 5 and 6 of a superblock read's answer.
pub fn ask_ack_read_superblock(
    slots: Slots,
    reads: SuperblockReads,
    which: u64,
    id: u64,
    whole: bool,
) -> Result<(), Refusal>
    ensures { result ≡ asked (ask_ack_read_superblock slots reads which id whole) }
{
    ask_waiting(reads, which, id)?;
    let slot = slots.at(which);
    if may_read(whole, slot) {
        return Ok(());
    }
    Err(Refusal::Condition)
}

// Is this what a read of the slot brings: damaged, or whole with the very superblock that it holds?
fn holds_read(slot: Option<Superblock>, read: Option<Superblock>) -> bool
    ensures { result ≡ holds_read slot read }
{
    let Some(s) = read else {
        return true;
    };
    let Some(t) = slot else {
        return false;
    };
    t.same(s)
}

// The same questions where the answer comes with what was read.
pub fn ask_read_superblock_as(
    slots: Slots,
    reads: SuperblockReads,
    which: u64,
    id: u64,
    read: Option<Superblock>,
) -> Result<(), Refusal>
    ensures { result ≡ asked (ask_read_superblock_as slots reads which id read) }
{
    ask_waiting(reads, which, id)?;
    let slot = slots.at(which);
    if holds_read(slot, read) {
        return Ok(());
    }
    Err(Refusal::Condition)
}

pub fn read_acked(reads: SuperblockReads, which: u64, id: u64) -> SuperblockReads
    ensures { result ≡ read_acked reads which id }
{
    let table = reads.at(which);
    let i = table.place(id);
    let next = table.remove(i);
    reads.put(which, next)
}

// The interval of an id; an empty one where it isn't there.
pub fn held_interval(table: IntervalTable, id: u64) -> JournalInterval
    ensures { result ≡ held_interval table id }
{
    let empty = JournalInterval { start: 0, len: 0 };
    table.get(id).unwrap_or(empty)
}

// Questions 5 and 6 of a journal read's answer.
pub fn ask_ack_read_journal(
    table: IntervalTable,
    id: u64,
    whole: bool,
    marks: &[u8],
) -> Result<(), Refusal>
    ensures { result ≡ asked (ask_ack_read_journal table id whole marks.now) }
{
    if !table.has(id) {
        return Err(Refusal::Id);
    }
    if whole {
        let v = held_interval(table, id);
        return journal::ask_readable(v, marks);
    }
    Ok(())
}

pub fn interval_left(table: IntervalTable, id: u64) -> IntervalTable
    ensures { result ≡ interval_left table id }
{
    let i = table.place(id);
    table.remove(i)
}

// Does the slot hold exactly what the write writes?
fn landed(slot: Option<Superblock>, write: Option<SuperblockWrite>) -> bool
    ensures { result ≡ landed slot write }
{
    let Some(awaited) = write else {
        return false;
    };
    let Some(held) = slot else {
        return false;
    };
    held.same(awaited.superblock)
}

// Questions 4, 5 and 6 of a superblock write's answer.
pub fn ask_ack_write_superblock(
    slots: Slots,
    writes: SuperblockWrites,
    which: u64,
    id: u64,
) -> Result<(), Refusal>
    ensures { result ≡ asked (ask_ack_write_superblock slots writes which id) }
{
    ask_which(which)?;
    let write = writes.at(which);
    if !is_write(write, id) {
        return Err(Refusal::Id);
    }
    let slot = slots.at(which);
    if landed(slot, write) {
        return Ok(());
    }
    Err(Refusal::Condition)
}

// Question 5 of a journal write's answer.
pub fn ask_ack_write_journal(table: IntervalTable, id: u64) -> Result<(), Refusal>
    ensures { result ≡ asked (ask_ack_write_journal table id) }
{
    if table.has(id) {
        return Ok(());
    }
    Err(Refusal::Id)
}
