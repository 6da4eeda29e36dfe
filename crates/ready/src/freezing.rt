// What a freeze has set aside, after a journal write and by question 2's clauses.
ghost use Rattle.std.specs.Prelude.{◌≡◌};
ghost use Rattle.ready.specs.State.{is_location, not_frozen};
ghost use Rattle.ready.specs.Inv.{frozen_ok, received_ok};
ghost use Rattle.ready.specs.JournalSteps.{written_frozen};

use super::Frozen;
use layout::{Geometry, Location};

// Is the received location this one?
pub(crate) fn is_location(received: Option<Location>, loc: Location) -> bool
    ensures { result ≡ is_location received loc }
{
    match received {
        None => false,
        Some(received) => received.same(loc),
    }
}

impl Frozen {
    // Nothing is frozen.
    pub(crate) fn not_frozen() -> Frozen
        ensures { result ≡ not_frozen }
    {
        Frozen {
            isFrozen: false,
            frozenJournalPosition: 0,
            frozenLoc: None,
        }
    }

    // After a journal write of frozen entries the position goes behind them; one of entries in memory leaves it.
    pub(crate) fn written(self, none: bool, written: u64) -> Frozen
        ensures { result ≡ written_frozen none written self }
    {
        if none {
            return self;
        }
        Frozen {
            frozenJournalPosition: written,
            ..self
        }
    }

    // Question 2: the clauses of a freeze.
    pub(crate) fn position_ok(self, g: Geometry, written: u64, len: u64) -> bool
        ensures { result ≡ frozen_ok g written len self }
    {
        let position = self.frozenJournalPosition;
        !self.isFrozen || (position <= g.blocks && len <= written && position <= written)
    }

    // Question 2: the clauses of a received location.
    pub(crate) fn received_ok(self, g: Geometry) -> bool
        ensures { result ≡ received_ok g self }
    {
        match self.frozenLoc {
            None => true,
            Some(received) => received.valid_table(g) && self.isFrozen,
        }
    }
}
