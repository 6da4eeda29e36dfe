// The superblock, and the operations that machine and disk share. The public face:
//   Superblock          counter, the journal's start and len, the table's location; the same, well formed, front and back, the next counter
//   selection           which of two superblocks is the newer
//   DiskOp              what the machine asks of the disk and what the disk answers (source 001)
//   JournalRead         what a read of journal blocks came back with
// Every function is total. `same`, `well_formed`, `front` and `back` ask nothing, and hold for any geometry; the others ask questions 1 and 4.
#![tactic(auto, using(refusal::specs::Refusal::questions, laws::specs::Choice::tests), unfolding(laws::specs::Choice::also, crate::specs::Superblock::increment_superblock_counter, crate::specs::Superblock::increments1, crate::specs::Superblock::select_superblock_index, crate::specs::Superblock::select_superblock, crate::specs::Superblock::wf_superblock, crate::specs::Superblock::same_superblock))]

mod superblocks;

use interval::JournalInterval;
use layout::Location;
pub use superblocks::{
    increment_superblock_counter, increments1, select_superblock, select_superblock_index,
};

// What a commit writes, and what loading reads. Any numbers make one; the loader asks whether it is well formed.
#[derive(Clone, Copy, PartialEq, Eq)]
pub struct Superblock {
    pub counter: u64,
    pub journalStart: u64,
    pub journalLen: u64,
    pub indirectionTableLoc: Location,
}

// What a read of journal blocks came back with: whole, and the blocks of its interval lie in lent memory; or damaged, and none do.
#[derive(Clone, Copy)]
pub enum JournalRead {
    Whole,
    Damaged,
}

// The operations between machine and disk, as source 001 has them. What travels is numbers and superblocks. The bytes of journal blocks do
// not travel: they lie in lent memory beside the operation.
#[derive(Clone, Copy)]
pub enum DiskOp {
    ReqReadSuperblock {
        id: u64,
        which: u64,
    },
    ReqReadJournal {
        id: u64,
        interval: JournalInterval,
    },
    ReqWriteSuperblock {
        id: u64,
        which: u64,
        superblock: Superblock,
    },
    // A range of `blocks` blocks, to be written from block `start` on, going round. Its bytes lie in lent memory.
    ReqWriteJournal {
        id1: u64,
        id2: Option<u64>,
        start: u64,
        blocks: u64,
    },
    RespReadSuperblock {
        id: u64,
        which: u64,
        superblock: Option<Superblock>,
    },
    RespReadJournal {
        id: u64,
        journal: JournalRead,
    },
    RespWriteSuperblock {
        id: u64,
        which: u64,
    },
    RespWriteJournal {
        id: u64,
    },
    NoDiskOp,
}
