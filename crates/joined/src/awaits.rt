// What a machine awaits, in the form in which the disk holds it. What its kind lacks, it does not await.
ghost use Rattle.std.specs.Prelude.{◌≡◌};
ghost use Rattle.joined.specs.Awaited.{slot_ids, read_under, piece_awaited, pieces_awaited, commit_write, no_reads, no_pieces, no_writes, commit_writes, superblocks_await, other_awaits, ready_awaits, awaited_by};

use super::{Awaited, AwaitedRead, AwaitedReads};
use interval::JournalInterval;
use layout::Geometry;
use loading::{LoadingOther, LoadingSuperblock, Piece, SlotRead};
use machine::{Kind, Machine};
use ready::{Commit, Ready};
use requests::{SuperblockReads, SuperblockWrite, SuperblockWrites};
use tables::IdTable;

// The id of a slot's read, if it is awaited.
fn slot_ids(slot: SlotRead) -> IdTable
    ensures { result ≡ slot_ids slot }
{
    let none = IdTable::empty();
    match slot {
        SlotRead::Unasked => none,
        SlotRead::Awaited(id) => none.add(id),
        SlotRead::Success(_) => none,
        SlotRead::Corruption => none,
    }
}

// A read of a piece; none where the superblock's interval has no such piece.
fn read_under(id: u64, v: Option<JournalInterval>) -> Option<AwaitedRead>
    ensures { result ≡ read_under id v }
{
    v.map(|interval| AwaitedRead { id, interval })
}

fn piece_awaited(piece: Piece, v: Option<JournalInterval>) -> Option<AwaitedRead>
    ensures { result ≡ piece_awaited piece v }
{
    match piece {
        Piece::Unread => None,
        Piece::Reading(id) => read_under(id, v),
        Piece::In => None,
    }
}

// The superblock write of a commit in flight.
fn commit_write(commit: Commit) -> Option<SuperblockWrite>
    ensures { result ≡ commit_write commit }
{
    match commit {
        Commit::CommitNone => None,
        Commit::CommitAdvanceLog {
            id,
            new: superblock,
        } => Some(SuperblockWrite { id, superblock }),
        Commit::CommitAdvanceLocation {
            id,
            new: superblock,
        } => Some(SuperblockWrite { id, superblock }),
    }
}

fn no_reads() -> SuperblockReads
    ensures { result ≡ no_reads }
{
    let none = IdTable::empty();
    SuperblockReads {
        first: none,
        second: none,
    }
}

fn no_pieces() -> AwaitedReads
    ensures { result ≡ no_pieces }
{
    AwaitedReads {
        front: None,
        back: None,
    }
}

fn no_writes() -> SuperblockWrites
    ensures { result ≡ no_writes }
{
    SuperblockWrites {
        first: None,
        second: None,
    }
}

// A commit writes the slot that the machine does not stand on.
fn commit_writes(slot: u64, commit: Commit) -> SuperblockWrites
    ensures { result ≡ commit_writes slot commit }
{
    no_writes().put(slot, commit_write(commit))
}

fn superblocks_await(superblocks: LoadingSuperblock) -> Awaited
    ensures { result ≡ superblocks_await superblocks }
{
    let reads = SuperblockReads {
        first: slot_ids(superblocks.first),
        second: slot_ids(superblocks.second),
    };
    Awaited {
        superblockReads: reads,
        journalReads: no_pieces(),
        superblockWrites: no_writes(),
        journalWrites: IdTable::empty(),
    }
}

// The reads of the two pieces.
fn pieces_awaited(g: Geometry, other: LoadingOther) -> AwaitedReads
    ensures { result ≡ pieces_awaited g other }
{
    let s = other.superblock;
    AwaitedReads {
        front: piece_awaited(other.front, s.front(g)),
        back: piece_awaited(other.back, s.back(g)),
    }
}

fn other_awaits(g: Geometry, other: LoadingOther) -> Awaited
    ensures { result ≡ other_awaits g other }
{
    Awaited {
        superblockReads: no_reads(),
        journalReads: pieces_awaited(g, other),
        superblockWrites: no_writes(),
        journalWrites: IdTable::empty(),
    }
}

fn ready_awaits(ready: Ready) -> Awaited
    ensures { result ≡ ready_awaits ready }
{
    let writes = commit_writes(ready.commit_slot(), ready.commit);
    Awaited {
        superblockReads: no_reads(),
        journalReads: no_pieces(),
        superblockWrites: writes,
        journalWrites: ready.writes,
    }
}

pub(crate) fn awaited_by(g: Geometry, m: Machine) -> Awaited
    ensures { result ≡ awaited_by g m }
{
    match m.kind {
        Kind::LoadingSuperblock => superblocks_await(m.superblocks),
        Kind::LoadingOther => other_awaits(g, m.other),
        Kind::Ready => ready_awaits(m.ready),
    }
}
