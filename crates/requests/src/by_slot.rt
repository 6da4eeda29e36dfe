// What the disk has for each slot, found and put by the slot's number.
// `which` is 0 for the first and 1 for the second; a part that asks nothing takes any other number for the second.
ghost use Rattle.std.specs.Prelude.{◌≡◌};
ghost use Rattle.refusal.specs.Refusal.{asked};
ghost use Rattle.requests.specs.Slots.{ask_which, slot_at, put_slot, is_write, slot_of};

use super::{BySlot, SuperblockWrite, SuperblockWrites};
use refusal::Refusal;

// Question 4, of `which`.
pub(crate) fn ask_which(which: u64) -> Result<(), Refusal>
    ensures { result ≡ asked (ask_which which) }
{
    if which <= 1 {
        return Ok(());
    }
    Err(Refusal::Argument)
}

impl<T: Copy> BySlot<T> {
    pub fn at(self, which: u64) -> T
        ensures { result ≡ slot_at self which }
    {
        if which == 0 {
            return self.first;
        }
        self.second
    }

    pub fn put(mut self, which: u64, new: T) -> BySlot<T>
        ensures { result ≡ put_slot self which new }
    {
        if which == 0 {
            self.first = new;
            return self;
        }
        self.second = new;
        self
    }
}

// Has the write this id?
pub(crate) fn is_write(write: Option<SuperblockWrite>, id: u64) -> bool
    ensures { result ≡ is_write write id }
{
    write.is_some_and(|other| other.id == id)
}

impl SuperblockWrites {
    // The slot whose write in flight has this id; the first where neither has.
    pub fn slot_of(self, id: u64) -> u64
        ensures { result ≡ slot_of self id }
    {
        if is_write(self.second, id) {
            return 1;
        }
        0
    }
}
