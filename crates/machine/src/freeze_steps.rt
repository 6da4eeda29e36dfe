// Freeze and ReceiveFrozenLoc, after questions 1 and 2; neither is a step by itself.
#![tactic(auto, using(refusal::specs::Refusal::questions, laws::specs::Choice::tests), unfolding(laws::specs::Choice::and_then, crate::specs::Machine::answered, crate::specs::Working::ask_freeze_step, crate::specs::Working::freeze_machine, crate::specs::Working::ask_receive_frozen_loc_step, crate::specs::Working::receive_frozen_loc_machine))]

ghost use Rattle.std.specs.Prelude.{◌≡◌};
ghost use Rattle.refusal.specs.Refusal.{asked};
ghost use Rattle.superblock.specs.declared.DiskOp.TheVariants.{NoDiskOp};
ghost use Rattle.machine.specs.Machine.{answered};
ghost use Rattle.machine.specs.Working.{ask_freeze_step, freeze_machine, ask_receive_frozen_loc_step, receive_frozen_loc_machine};

use super::{Kind, Machine, MachineStepped};
use layout::{Geometry, Location};
use refusal::Refusal;
use superblock::DiskOp;

impl Machine {
    fn ask_freeze(self) -> Result<(), Refusal>
        ensures { result ≡ asked (ask_freeze_step self) }
    {
        self.ask_kind(Kind::Ready)?;
        self.ready.ask_freeze()
    }

    // Freeze.
    pub fn freeze_asked(mut self) -> MachineStepped
        ensures { result ≡ answered (ask_freeze_step self) NoDiskOp (freeze_machine self) self }
    {
        if let Err(no) = self.ask_freeze() {
            return self.refused(no);
        }
        self.ready = self.ready.freeze_next();
        self.sync = self.sync.move_states(3, 2);
        self.accepted(DiskOp::NoDiskOp)
    }

    fn ask_receive_frozen_loc(self, g: Geometry, loc: Location) -> Result<(), Refusal>
        ensures { result ≡ asked (ask_receive_frozen_loc_step g self loc) }
    {
        self.ask_kind(Kind::Ready)?;
        self.ready.ask_receive_frozen_loc(g, loc)
    }

    // ReceiveFrozenLoc.
    pub fn receive_frozen_loc_asked(self, g: Geometry, loc: Location) -> MachineStepped
        ensures { result ≡ answered (ask_receive_frozen_loc_step g self loc) NoDiskOp (receive_frozen_loc_machine self loc) self }
    {
        if let Err(no) = self.ask_receive_frozen_loc(g, loc) {
            return self.refused(no);
        }
        self.worked(self.ready.receive_frozen_loc_next(loc))
    }
}
