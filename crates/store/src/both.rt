// A step of the machine with its operation at the disk, and the two forms of an answer.
ghost use Rattle.std.specs.Prelude.{◌≡◌};
ghost use Rattle.machine.specs.Machine.{initial_machine};
ghost use Rattle.disk.specs.Disk.{idle_disk};
ghost use Rattle.store.specs.Store.{store, store_answered, refused, accepted};
ghost use Rattle.store.specs.Steps.{both_by};

use super::{SteppedStore, Store, StoreStepped};
use disk::Disk;
use layout::Geometry;
use machine::{Machine, MachineStepped};
use refusal::Refusal;
use requests::Slots;
use superblock::DiskOp;

impl Store {
    // The machine at Init beside a disk without requests.
    pub fn initial(slots: Slots) -> Store
        ensures { result ≡ store initial_machine (idle_disk slots) }
    {
        let machine = Machine::initial();
        let disk = Disk::idle(slots);
        Store { machine, disk }
    }

    // A no, whatever says it, hands the store back.
    pub fn refused<E>(self, no: E) -> SteppedStore<E>
        ensures { result ≡ refused self no }
    {
        SteppedStore {
            answer: Err(no),
            store: self,
        }
    }

    // A yes hands over the next store, with the disk operation that was done.
    pub(crate) fn accepted(self, op: DiskOp) -> StoreStepped
        ensures { result ≡ accepted op self }
    {
        SteppedStore {
            answer: Ok(op),
            store: self,
        }
    }

    // The store beside an answer.
    fn answered(self, answer: Result<DiskOp, Refusal>) -> StoreStepped
        ensures { result ≡ store_answered answer self }
    {
        SteppedStore {
            answer: answer,
            store: self,
        }
    }

    // A step that the machine has answered goes to the disk; either's no leaves the store.
    #[tactic(auto, unfolding(crate::specs::Steps::both_by, crate::specs::Store::answered, disk::specs::Disk::answered_with))]
    pub(crate) fn both(self, g: Geometry, stepped: MachineStepped) -> StoreStepped
        ensures { result ≡ both_by g self stepped }
    {
        let Ok(op) = stepped.answer else {
            return self.answered(stepped.answer);
        };
        let d = self.disk.decide_asked(g, op);
        let next = Store {
            machine: stepped.machine,
            disk: d.disk,
        };
        let Ok(()) = d.answer else {
            return self.answered(d.answer.and(stepped.answer));
        };
        next.accepted(op)
    }
}
