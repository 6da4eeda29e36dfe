// What the disk does with a request that it receives (001's RecvRead and RecvWrite), after questions 1 and 2. Each function decides by value
// and asks the other questions; none is a step by itself.
ghost use Rattle.std.specs.Prelude.{◌≡◌};
ghost use Rattle.refusal.specs.Refusal.{asked};
ghost use Rattle.requests.specs.Receive.{ask_recv_read_superblock, read_received, ask_recv_read_journal, ask_recv_write_superblock, rows_for, is_new, ask_new_ids, second_fits, ask_rows, ask_recv_write_journal, added_part, write_received};

use super::by_slot::{ask_which, is_write};
use super::limits::{MOST_JOURNAL_READS, MOST_JOURNAL_WRITES, MOST_SUPERBLOCK_READS};
use super::{SuperblockReads, SuperblockWrites};
use interval::JournalInterval;
use layout::Geometry;
use refusal::Refusal;
use tables::IntervalTable;

// Questions 4, 5 and 8 of a superblock read.
pub fn ask_recv_read_superblock(reads: SuperblockReads, which: u64, id: u64) -> Result<(), Refusal>
    ensures { result ≡ asked (ask_recv_read_superblock reads which id) }
{
    ask_which(which)?;
    let first = reads.first;
    let second = reads.second;
    let a = first.has(id);
    let b = second.has(id);
    if a | b {
        return Err(Refusal::Id);
    }
    let table = reads.at(which);
    if table.room(1, MOST_SUPERBLOCK_READS) {
        return Ok(());
    }
    Err(Refusal::Room)
}

pub fn read_received(reads: SuperblockReads, which: u64, id: u64) -> SuperblockReads
    ensures { result ≡ read_received reads which id }
{
    let table = reads.at(which);
    let next = table.add(id);
    reads.put(which, next)
}

// Questions 4, 5 and 8 of a journal read.
pub fn ask_recv_read_journal(
    g: Geometry,
    table: IntervalTable,
    id: u64,
    v: JournalInterval,
) -> Result<(), Refusal>
    ensures { result ≡ asked (ask_recv_read_journal g table id v) }
{
    if !v.contiguous(g) {
        return Err(Refusal::Argument);
    }
    table.ask_add(id, MOST_JOURNAL_READS)
}

// Questions 4 and 5 of a superblock write.
pub fn ask_recv_write_superblock(
    writes: SuperblockWrites,
    which: u64,
    id: u64,
) -> Result<(), Refusal>
    ensures { result ≡ asked (ask_recv_write_superblock writes which id) }
{
    ask_which(which)?;
    let first = writes.first;
    let second = writes.second;
    let a = is_write(first, id);
    let b = is_write(second, id);
    if a | b {
        return Err(Refusal::Id);
    }
    Ok(())
}

// Is a second id, if one is given, new to the table?
fn is_new(table: IntervalTable, id: Option<u64>) -> bool
    ensures { result ≡ is_new table id }
{
    match id {
        Some(other) => !table.has(other),
        None => true,
    }
}

// Question 5 of a journal write.
fn ask_new_ids(table: IntervalTable, id1: u64, id2: Option<u64>) -> Result<(), Refusal>
    ensures { result ≡ asked (ask_new_ids table id1 id2) }
{
    let there = table.has(id1);
    let new = is_new(table, id2);
    if !there & new {
        return Ok(());
    }
    Err(Refusal::Id)
}

// How many rows a write takes: one where it runs straight, two where it passes the ring's end.
fn rows_for(straight: bool) -> usize
    ensures { result ≡ rows_for straight }
{
    if straight {
        return 1;
    }
    2
}

// Is a second id given exactly where the write passes the end, and unlike the first?
fn second_fits(straight: bool, id1: u64, id2: Option<u64>) -> bool
    ensures { result ≡ second_fits straight id1 id2 }
{
    match id2 {
        Some(id) => !straight && id != id1,
        None => straight,
    }
}

// Questions 8 and 9 of a journal write.
fn ask_rows(table: IntervalTable, straight: bool, id1: u64, id2: Option<u64>) -> Result<(), Refusal>
    ensures { result ≡ asked (ask_rows table straight id1 id2) }
{
    if !table.room(rows_for(straight), MOST_JOURNAL_WRITES) {
        return Err(Refusal::Room);
    }
    if second_fits(straight, id1, id2) {
        return Ok(());
    }
    Err(Refusal::SecondId)
}

// Questions 4, 5, 8 and 9 of a journal write.
pub fn ask_recv_write_journal(
    g: Geometry,
    table: IntervalTable,
    id1: u64,
    id2: Option<u64>,
    v: JournalInterval,
) -> Result<(), Refusal>
    ensures { result ≡ asked (ask_recv_write_journal g table id1 id2 v) }
{
    if !v.valid(g) {
        return Err(Refusal::Argument);
    }
    ask_new_ids(table, id1, id2)?;
    let straight = v.contiguous(g);
    ask_rows(table, straight, id1, id2)
}

fn added_part(table: IntervalTable, id: u64, part: Option<JournalInterval>) -> IntervalTable
    ensures { result ≡ added_part table id part }
{
    match part {
        Some(v) => table.add(id, v),
        None => table,
    }
}

// The table with the write's rows: one, or its front and its back.
pub fn write_received(
    g: Geometry,
    table: IntervalTable,
    id1: u64,
    id2: Option<u64>,
    v: JournalInterval,
) -> IntervalTable
    ensures { result ≡ write_received g table id1 id2 v }
{
    let Some(id) = id2 else {
        return table.add(id1, v);
    };
    let front = v.front(g);
    let back = v.back(g);
    let one = added_part(table, id1, front);
    added_part(one, id, back)
}
