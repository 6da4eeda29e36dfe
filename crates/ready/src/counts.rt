// The counts of entries: what a journal write sends and leaves, what is left of the replay, question 2's clauses.
ghost use Rattle.std.specs.Prelude.{◌≡◌};
ghost use Rattle.ready.specs.State.{none_frozen, none_in_memory, replayed, replay_left, sent, left};
ghost use Rattle.ready.specs.Inv.{some_frozen_ok, entries_ok};
ghost use Rattle.ready.specs.JournalSteps.{written_entries};

use super::{Bodies, Entries};
use memory::Count;

impl Entries {
    pub(crate) fn none_frozen(self) -> bool
        ensures { result ≡ none_frozen self }
    {
        self.frozen == 0
    }

    // Is all that is pending frozen?
    pub(crate) fn none_in_memory(self) -> bool
        ensures { result ≡ none_in_memory self }
    {
        self.pending <= self.frozen
    }

    // Is nothing left of the replay?
    pub(crate) fn replayed(self) -> bool
        ensures { result ≡ replayed self }
    {
        self.replay <= self.taken.entries
    }

    // How many entries are left of the replay.
    pub fn replay_left(self) -> u64
        ensures { result ≡ replay_left self }
    {
        self.replay.saturating_sub(self.taken.entries)
    }

    // What a journal write sends: the frozen entries, or if there are none those in memory.
    pub(crate) fn sent(self, bodies: Bodies) -> Count
        ensures { result ≡ sent self bodies }
    {
        if self.none_frozen() {
            return Count {
                entries: self.pending,
                bytes: bodies.pending,
            };
        }
        Count {
            entries: self.frozen,
            bytes: bodies.frozen,
        }
    }

    // What it leaves.
    pub(crate) fn left(self, bodies: Bodies) -> Count
        ensures { result ≡ left self bodies }
    {
        let gone = self.sent(bodies);
        Count {
            entries: self.pending.saturating_sub(gone.entries),
            bytes: bodies.pending.saturating_sub(gone.bytes),
        }
    }

    // After a journal write: those that it sent are gone, and none is frozen.
    pub(crate) fn written(self) -> Entries
        ensures { result ≡ written_entries self }
    {
        if self.none_frozen() {
            return Entries {
                pending: 0,
                frozen: 0,
                ..self
            };
        }
        let pending = self.pending.saturating_sub(self.frozen);
        Entries {
            pending,
            frozen: 0,
            ..self
        }
    }

    // Question 2: the clauses of frozen entries.
    pub(crate) fn some_frozen_ok(self, written: u64, position: u64, frozen: bool) -> bool
        ensures { result ≡ some_frozen_ok written position frozen self }
    {
        self.none_frozen() || (position == written && frozen)
    }

    // Question 2: frozen within pending, taken within replay.
    pub(crate) fn ok(self) -> bool
        ensures { result ≡ entries_ok self }
    {
        self.frozen <= self.pending && self.taken.entries <= self.replay
    }
}
