// A disk that nothing has been asked of, and the two forms of an answer.
ghost use Rattle.std.specs.Prelude.{◌≡◌};
ghost use Rattle.disk.specs.Disk.{idle_disk, refused, done};

use super::{Disk, Stepped};
use requests::{Slots, SuperblockReads, SuperblockWrites};
use tables::{IdTable, IntervalTable};

impl Disk {
    // A disk without requests.
    pub fn idle(slots: Slots) -> Disk
        ensures { result ≡ idle_disk slots }
    {
        let ids = IdTable::empty();
        let rows = IntervalTable::empty();
        Disk {
            slots,
            superblockReads: SuperblockReads {
                first: ids,
                second: ids,
            },
            superblockWrites: SuperblockWrites {
                first: None,
                second: None,
            },
            journalReads: rows,
            journalWrites: rows,
        }
    }

    // A no, whatever says it, and the disk as it was.
    pub fn refused<T, E>(self, no: E) -> Stepped<T, E>
        ensures { result ≡ refused self no }
    {
        Stepped {
            answer: Err(no),
            disk: self,
        }
    }

    // A yes, with what was asked for: this, the next disk.
    pub(crate) fn done<T, E>(self, value: T) -> Stepped<T, E>
        ensures { result ≡ done value self }
    {
        Stepped {
            answer: Ok(value),
            disk: self,
        }
    }
}
