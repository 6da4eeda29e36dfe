// The machine at Init, its steps from one kind into another, and the two forms of an answer.
#![tactic(auto, using(laws::specs::Choice::tests), unfolding(crate::specs::Machine::initial_machine))]

ghost use Rattle.std.specs.Prelude.{◌≡◌};
ghost use Rattle.refusal.specs.Refusal.{asked};
ghost use Rattle.superblock.specs.declared.DiskOp.TheVariants.{NoDiskOp};
ghost use Rattle.machine.specs.Machine.{limits_of, ask_kind, with_ready, to_other, to_ready, no_superblock, nothing_loaded, initial_machine, refused, accepted};

use super::{Kind, Machine, MachineStepped};
use layout::Location;
use loading::{LoadingOther, LoadingSuperblock, Piece};
use memory::Limits;
use ready::Ready;
use refusal::Refusal;
use superblock::{DiskOp, Superblock};
use tables::SyncTable;

pub(crate) fn no_superblock() -> Superblock
    ensures { result ≡ no_superblock }
{
    Superblock {
        counter: 0,
        journalStart: 0,
        journalLen: 0,
        indirectionTableLoc: Location { addr: 0, len: 0 },
    }
}

fn nothing_loaded() -> LoadingOther
    ensures { result ≡ nothing_loaded }
{
    LoadingOther {
        superblock: no_superblock(),
        whichSuperblock: 0,
        front: Piece::Unread,
        back: Piece::Unread,
    }
}

impl Machine {
    pub const MOST_SYNC_REQS: usize = 32;

    // 000's Init.
    pub fn initial() -> Machine
        ensures { result ≡ initial_machine }
    {
        Machine {
            kind: Kind::LoadingSuperblock,
            superblocks: LoadingSuperblock::initial(),
            other: nothing_loaded(),
            ready: Ready::loaded(no_superblock(), 0, 0),
            sync: SyncTable::empty(),
        }
    }

    // How much pending memory holds.
    pub(crate) fn limits(self) -> Limits
        ensures { result ≡ limits_of self }
    {
        Limits::store()
    }

    // Question 3 of a step that names a kind.
    pub(crate) fn ask_kind(self, kind: Kind) -> Result<(), Refusal>
        ensures { result ≡ asked (ask_kind kind self) }
    {
        if self.kind == kind {
            return Ok(());
        }
        Err(Refusal::Kind)
    }

    // A step into another kind.
    pub(crate) fn to_other(self, other: LoadingOther) -> Machine
        ensures { result ≡ to_other self other }
    {
        Machine {
            kind: Kind::LoadingOther,
            other,
            ..self
        }
    }

    pub fn to_ready(self, ready: Ready) -> Machine
        ensures { result ≡ to_ready self ready }
    {
        Machine {
            kind: Kind::Ready,
            ready,
            ..self
        }
    }

    // Another record of work in the place of its own.
    pub(crate) fn with_ready(mut self, ready: Ready) -> Machine
        ensures { result ≡ with_ready self ready }
    {
        self.ready = ready;
        self
    }

    // A no: which question's, and the machine as it was.
    pub(crate) fn refused(self, no: Refusal) -> MachineStepped
        ensures { result ≡ refused self no }
    {
        MachineStepped {
            answer: Err(no),
            machine: self,
        }
    }

    // A step that alters the record of work alone, and asks nothing of the disk.
    pub(crate) fn worked(self, ready: Ready) -> MachineStepped
        ensures { result ≡ accepted NoDiskOp (with_ready self ready) }
    {
        self.with_ready(ready).accepted(DiskOp::NoDiskOp)
    }

    // A yes: what is asked of the disk, and this, the next machine.
    pub(crate) fn accepted(self, op: DiskOp) -> MachineStepped
        ensures { result ≡ accepted op self }
    {
        MachineStepped {
            answer: Ok(op),
            machine: self,
        }
    }
}
