// The disk and the store of a line, at N = 8 and T = 4,096 (docs/HANDED.md).
use super::line::Handed;
use disk::Disk;
use interval::JournalInterval;
use layout::{Geometry, Location};
use machine::Machine;
use memory::Count;
use ready::{Commit, Entries, Frozen, Ready};
use requests::Slots;
use store::Store;
use superblock::Superblock;

pub(crate) fn geometry() -> Geometry {
    Geometry {
        blocks: 8,
        table: 4096,
    }
}

// A superblock with table 1.
fn superblock(counter: u64, journal: JournalInterval) -> Superblock {
    let loc = Location {
        addr: 40960,
        len: 4096,
    };
    Superblock {
        counter,
        journalStart: journal.start,
        journalLen: journal.len,
        indirectionTableLoc: loc,
    }
}

// Slot 2 has the counter after slot 1's, so it is the selected one.
fn selected(h: Handed) -> Superblock {
    superblock(8, h.selected)
}

pub(crate) fn disk(h: Handed) -> Disk {
    let first = superblock(7, JournalInterval { start: 0, len: 0 });
    let second = selected(h);
    let slots = Slots {
        first: Some(first),
        second: Some(second),
    };
    let mut d = Disk::idle(slots);
    d.journalWrites = h.held;
    d
}

fn no_entries() -> Entries {
    let taken = Count {
        entries: 0,
        bytes: 0,
    };
    Entries {
        pending: 0,
        frozen: 0,
        replay: 0,
        taken,
    }
}

fn ready(h: Handed) -> Ready {
    let superblock = selected(h);
    let written = superblock.journalLen;
    let frozen = Frozen {
        isFrozen: false,
        frozenJournalPosition: 0,
        frozenLoc: None,
    };
    let entries = no_entries();
    let writes = h.awaited;
    Ready {
        superblock,
        whichSuperblock: 1,
        writtenJournalLen: written,
        frozen,
        commit: Commit::CommitNone,
        entries,
        writes,
    }
}

pub(crate) fn store(h: Handed) -> Store {
    let work = ready(h);
    let first = Machine::initial();
    let machine = first.to_ready(work);
    let disk = disk(h);
    Store { machine, disk }
}
