// Advance and Replay, as far as the record goes: entries are counted here and lie in lent memory.
ghost use Rattle.std.specs.Prelude.{◌≡◌};
ghost use Rattle.refusal.specs.Refusal.{asked};
ghost use Rattle.ready.specs.EntrySteps.{ask_advance, advance, advance_next, replay_next};

use super::sums::fits;
use super::{Entries, Ready};
use memory::{Count, Limits};
use refusal::Refusal;

impl Ready {
    // Advance: 6 something is left of the replay; 8 the new entries don't fit beside the pending ones, which take `held` bytes.
    pub fn ask_advance(self, limits: Limits, held: u64, new: Count) -> Result<(), Refusal>
        ensures { result ≡ asked (ask_advance limits self held new) }
    {
        if !self.replayed() {
            return Err(Refusal::Condition);
        }
        if fits(self.entries.pending, new.entries, limits.entries)
            && fits(held, new.bytes, limits.bytes)
        {
            return Ok(());
        }
        Err(Refusal::Room)
    }

    // The same, and where nothing is refused what pending memory holds then.
    pub fn advance(self, limits: Limits, held: u64, new: Count) -> Result<Count, Refusal>
        ensures { result ≡ advance limits self held new }
    {
        self.ask_advance(limits, held, new)?;
        Ok(Count {
            entries: self.entries.pending + new.entries,
            bytes: held + new.bytes,
        })
    }

    // So many entries are pending then.
    pub fn advance_next(self, pending: u64) -> Ready
        ensures { result ≡ advance_next self pending }
    {
        let entries = Entries {
            pending,
            ..self.entries
        };
        Ready { entries, ..self }
    }

    // Replay: so much is taken then. That the entries are the next ones is asked of replay memory.
    pub fn replay_next(self, taken: Count) -> Ready
        ensures { result ≡ replay_next self taken }
    {
        let entries = Entries {
            taken,
            ..self.entries
        };
        Ready { entries, ..self }
    }
}
