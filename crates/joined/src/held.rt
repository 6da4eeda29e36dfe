// Does the disk hold exactly what is awaited?
ghost use Rattle.std.specs.Prelude.{◌≡◌};
ghost use Rattle.joined.specs.Held.{same_tables, same_reads, read_is, read_held, read_added, read_ids, same_journal_reads, same_write, same_writes};

use super::{AwaitedRead, AwaitedReads};
use interval::JournalInterval;
use requests::{SuperblockReads, SuperblockWrite, SuperblockWrites};
use tables::{IdTable, IntervalTable, same_ids, within};

const SIZE: usize = 16;

// Do two tables hold the same ids?
fn same_tables(a: IdTable, b: IdTable) -> bool
    ensures { result ≡ same_tables a b }
{
    let xs = &a.ids[..a.count.min(SIZE)];
    let ys = &b.ids[..b.count.min(SIZE)];
    let there = within(xs, ys);
    let back = within(ys, xs);
    there & back
}

// Reads of the superblocks: under the same ids, slot by slot.
pub(crate) fn same_reads(awaited: SuperblockReads, held: SuperblockReads) -> bool
    ensures { result ≡ same_reads awaited held }
{
    same_tables(awaited.first, held.first) & same_tables(awaited.second, held.second)
}

// Has the id this interval?
fn read_is(held: Option<JournalInterval>, v: JournalInterval) -> bool
    ensures { result ≡ read_is held v }
{
    match held {
        Some(w) => v == w,
        None => false,
    }
}

// Is an awaited read held, with its interval?
fn read_held(table: IntervalTable, read: Option<AwaitedRead>) -> bool
    ensures { result ≡ read_held table read }
{
    match read {
        Some(awaited) => read_is(table.get(awaited.id), awaited.interval),
        None => true,
    }
}

// The ids that are awaited.
fn read_added(ids: IdTable, read: Option<AwaitedRead>) -> IdTable
    ensures { result ≡ read_added ids read }
{
    match read {
        Some(awaited) => ids.add(awaited.id),
        None => ids,
    }
}

fn read_ids(reads: AwaitedReads) -> IdTable
    ensures { result ≡ read_ids reads }
{
    let front = read_added(IdTable::empty(), reads.front);
    read_added(front, reads.back)
}

// Reads of journal pieces: under the same ids, and each of its interval.
pub(crate) fn same_journal_reads(reads: AwaitedReads, table: IntervalTable) -> bool
    ensures { result ≡ same_journal_reads reads table }
{
    let ids = same_ids(read_ids(reads), table);
    let front = read_held(table, reads.front);
    let back = read_held(table, reads.back);
    ids & (front & back)
}

// One superblock write: none, or under the same id and of the same superblock.
fn same_write(awaited: Option<SuperblockWrite>, held: Option<SuperblockWrite>) -> bool
    ensures { result ≡ same_write awaited held }
{
    awaited == held
}

// Writes of the superblocks, slot by slot.
pub(crate) fn same_writes(awaited: SuperblockWrites, held: SuperblockWrites) -> bool
    ensures { result ≡ same_writes awaited held }
{
    same_write(awaited.first, held.first) & same_write(awaited.second, held.second)
}
