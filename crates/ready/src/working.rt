// The record of work: as loading leaves it, and what others ask of it.
ghost use Rattle.std.specs.Prelude.{◌≡◌};
ghost use Rattle.ready.specs.State.{none_frozen, none_in_memory, replayed, sent, left, commit_slot, none_outstanding, loaded};

use super::{Bodies, Commit, Entries, Frozen, Ready};
use memory::Count;
use superblock::Superblock;
use tables::IdTable;

impl Ready {
    // The most outstanding journal writes.
    pub const MOST_WRITES: usize = 16;

    // What FinishLoadingOtherPhase makes of the loaded superblock, its slot and the number of replay entries.
    pub fn loaded(superblock: Superblock, which: u64, replay: u64) -> Ready
        ensures { result ≡ loaded superblock which replay }
    {
        Ready {
            superblock,
            whichSuperblock: which,
            writtenJournalLen: superblock.journalLen,
            frozen: Frozen::not_frozen(),
            commit: Commit::CommitNone,
            entries: Entries {
                pending: 0,
                frozen: 0,
                replay,
                taken: Count {
                    entries: 0,
                    bytes: 0,
                },
            },
            writes: IdTable::empty(),
        }
    }

    // Are there no frozen entries? Then a journal write sends those in memory, and sync requests move with it.
    pub fn none_frozen(self) -> bool
        ensures { result ≡ none_frozen self.entries }
    {
        self.entries.none_frozen()
    }

    // Is no entry in memory?
    pub fn none_in_memory(self) -> bool
        ensures { result ≡ none_in_memory self.entries }
    {
        self.entries.none_in_memory()
    }

    // Is nothing left of the replay?
    pub fn replayed(self) -> bool
        ensures { result ≡ replayed self.entries }
    {
        self.entries.replayed()
    }

    // The pending entries that a journal write sends, and those that it leaves.
    pub fn sent(self, bodies: Bodies) -> Count
        ensures { result ≡ sent self.entries bodies }
    {
        self.entries.sent(bodies)
    }

    pub fn left(self, bodies: Bodies) -> Count
        ensures { result ≡ left self.entries bodies }
    {
        self.entries.left(bodies)
    }

    // The slot that a commit writes: the other one.
    pub fn commit_slot(self) -> u64
        ensures { result ≡ commit_slot self }
    {
        if self.whichSuperblock == 0 {
            return 1;
        }
        0
    }

    // Is every journal write answered?
    pub(crate) fn none_outstanding(self) -> bool
        ensures { result ≡ none_outstanding self }
    {
        self.writes.count == 0
    }
}
