// The limits of pending memory: the store's, and the questions of them.
ghost use Rattle.std.specs.Prelude.{◌≡◌};
ghost use Rattle.refusal.specs.Refusal.{asked};
ghost use Rattle.memory.specs.Limits.{store_limits, ask_pending_lent, ask_room};

use super::{Count, Limits};
use refusal::Refusal;

impl Limits {
    pub const MOST_ENTRIES: u64 = 1024;

    pub const MOST_BYTES: u64 = 65536;

    // The store's limits, the largest.
    pub fn store() -> Limits
        ensures { result ≡ store_limits }
    {
        Limits {
            entries: Self::MOST_ENTRIES,
            bytes: Self::MOST_BYTES,
        }
    }

    // Question 1 of pending memory: limits up to the largest, and lent lengths that are the limits.
    pub fn ask_lent(self, bytes: usize, lens: usize) -> Result<(), Refusal>
        ensures { result ≡ asked (ask_pending_lent self bytes lens) }
    {
        if self.entries <= Self::MOST_ENTRIES
            && self.bytes <= Self::MOST_BYTES
            && bytes as u64 == self.bytes
            && lens as u64 == self.entries
        {
            return Ok(());
        }
        Err(Refusal::Sizes)
    }

    // Question 8: does so much fit?
    pub fn ask_room(self, count: Count) -> Result<(), Refusal>
        ensures { result ≡ asked (ask_room self count) }
    {
        if self.entries < count.entries {
            return Err(Refusal::Room);
        }
        if self.bytes < count.bytes {
            return Err(Refusal::Room);
        }
        Ok(())
    }
}
