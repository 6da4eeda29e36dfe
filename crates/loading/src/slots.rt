// One superblock slot while it is read.
ghost use Rattle.std.specs.Prelude.{◌≡◌};
ghost use Rattle.loading.specs.Slots.{success_wf, slot_awaits, slot_unasked, slot_corrupt, slot_succeeded, slot_holds, slot_reads_differ, slot_read};

use super::SlotRead;
use layout::Geometry;
use superblock::Superblock;

impl SlotRead {
    // Is a superblock that was read well formed?
    pub(crate) fn success_wf(self, g: Geometry) -> bool
        ensures { result ≡ success_wf g self }
    {
        match self {
            SlotRead::Success(s) => s.well_formed(g),
            _ => true,
        }
    }

    // Is the read under this id awaited?
    pub(crate) fn awaits(self, id: u64) -> bool
        ensures { result ≡ slot_awaits self id }
    {
        match self {
            SlotRead::Awaited(k) => k == id,
            _ => false,
        }
    }

    pub(crate) fn unasked(self) -> bool
        ensures { result ≡ slot_unasked self }
    {
        matches!(self, SlotRead::Unasked)
    }

    pub(crate) fn corrupt(self) -> bool
        ensures { result ≡ slot_corrupt self }
    {
        matches!(self, SlotRead::Corruption)
    }

    pub(crate) fn succeeded(self) -> bool
        ensures { result ≡ slot_succeeded self }
    {
        matches!(self, SlotRead::Success(_))
    }

    // The superblock that was read, if one was.
    pub(crate) fn holds(self) -> Option<Superblock>
        ensures { result ≡ slot_holds self }
    {
        match self {
            SlotRead::Success(s) => Some(s),
            _ => None,
        }
    }

    // Are not both slots read under one id?
    pub(crate) fn differs(self, other: SlotRead) -> bool
        ensures { result ≡ slot_reads_differ self other }
    {
        match self {
            SlotRead::Awaited(k) => !other.awaits(k),
            _ => true,
        }
    }

    // How a read ends: damaged or ill formed, it leaves the slot corrupt.
    pub(crate) fn of_read(read: Option<Superblock>, g: Geometry) -> SlotRead
        ensures { result ≡ slot_read g read }
    {
        match read {
            Some(s) if s.well_formed(g) => SlotRead::Success(s),
            _ => SlotRead::Corruption,
        }
    }
}
