// Freeze, and ReceiveFrozenLoc.
ghost use Rattle.std.specs.Prelude.{◌≡◌};
ghost use Rattle.refusal.specs.Refusal.{asked};
ghost use Rattle.ready.specs.FreezeSteps.{ask_freeze, freeze_next, ask_receive_frozen_loc, receive_frozen_loc_next};

use super::freezing::is_location;
use super::{Entries, Frozen, Ready};
use layout::{Geometry, Location};
use refusal::Refusal;

impl Ready {
    // Freeze: 6 a commit is in flight, the location last received is the superblock's, or something is left of the replay.
    pub fn ask_freeze(self) -> Result<(), Refusal>
        ensures { result ≡ asked (ask_freeze self) }
    {
        let received = is_location(self.frozen.frozenLoc, self.superblock.indirectionTableLoc);
        if self.commit.is_none() && !received && self.replayed() {
            return Ok(());
        }
        Err(Refusal::Condition)
    }

    // All pending entries are frozen, up to what is written.
    pub fn freeze_next(self) -> Ready
        ensures { result ≡ freeze_next self }
    {
        let frozen = Frozen {
            isFrozen: true,
            frozenJournalPosition: self.writtenJournalLen,
            frozenLoc: None,
        };
        let entries = Entries {
            frozen: self.entries.pending,
            ..self.entries
        };
        Ready {
            frozen,
            entries,
            ..self
        }
    }

    // ReceiveFrozenLoc: 4 the location isn't a table's; 6 nothing is frozen, or one was received.
    pub fn ask_receive_frozen_loc(self, g: Geometry, loc: Location) -> Result<(), Refusal>
        ensures { result ≡ asked (ask_receive_frozen_loc g self loc) }
    {
        if !loc.valid_table(g) {
            return Err(Refusal::Argument);
        }
        if self.frozen.isFrozen && self.frozen.frozenLoc.is_none() {
            return Ok(());
        }
        Err(Refusal::Condition)
    }

    pub fn receive_frozen_loc_next(self, loc: Location) -> Ready
        ensures { result ≡ receive_frozen_loc_next self loc }
    {
        let frozen = Frozen {
            frozenLoc: Some(loc),
            ..self.frozen
        };
        Ready { frozen, ..self }
    }
}
