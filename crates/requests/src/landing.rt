// A superblock write lands: its slot holds it (001's ProcessWriteSuperblock). The write stays in flight, and may land again.
ghost use Rattle.std.specs.Prelude.{◌≡◌};
ghost use Rattle.refusal.specs.Refusal.{asked};
ghost use Rattle.requests.specs.Landing.{in_flight, landing_on, ask_land, slots_landed};

use super::by_slot::ask_which;
use super::{Slots, SuperblockWrite, SuperblockWrites};
use refusal::Refusal;
use superblock::Superblock;

fn in_flight(write: Option<SuperblockWrite>) -> bool
    ensures { result ≡ in_flight write }
{
    write.is_some()
}

// What the slot holds after the landing.
fn landing_on(slot: Option<Superblock>, write: Option<SuperblockWrite>) -> Option<Superblock>
    ensures { result ≡ landing_on slot write }
{
    match write {
        Some(landed) => Some(landed.superblock),
        None => slot,
    }
}

// Questions 4 and 6 of a landing.
pub fn ask_land(writes: SuperblockWrites, which: u64) -> Result<(), Refusal>
    ensures { result ≡ asked (ask_land writes which) }
{
    ask_which(which)?;
    let write = writes.at(which);
    if in_flight(write) {
        return Ok(());
    }
    Err(Refusal::Condition)
}

pub fn slots_landed(slots: Slots, writes: SuperblockWrites, which: u64) -> Slots
    ensures { result ≡ slots_landed slots writes which }
{
    let slot = slots.at(which);
    let write = writes.at(which);
    let next = landing_on(slot, write);
    slots.put(which, next)
}
