// Both commits and their answer, after questions 1 and 2; none is a step by itself.
#![tactic(auto, using(refusal::specs::Refusal::questions, laws::specs::Choice::tests, crate::specs::Laws::Parts::located), unfolding(laws::specs::Choice::and_then, crate::specs::Machine::answered, crate::specs::Working::sent_sync, crate::specs::Working::answered_sync, crate::specs::Working::commit_requested, crate::specs::Working::commit_answered, crate::specs::Working::ask_advance_log_step, crate::specs::Working::advance_log_machine, crate::specs::Working::ask_advance_location_step, crate::specs::Working::advance_location_machine, crate::specs::Working::write_back_superblock_resp_machine, ready::specs::CommitSteps::advance_log))]

ghost use Rattle.std.specs.Prelude.{◌≡◌};
ghost use Rattle.refusal.specs.Refusal.{ok_unless};
ghost use Rattle.ready.specs.CommitSteps.{advanced_log, advanced_location};
ghost use Rattle.machine.specs.Machine.{answered, accepted};
ghost use Rattle.machine.specs.Working.{new_location, commit_op, commit_requested, ask_advance_log_step, advance_log_op, advance_log_machine, ask_advance_location_step, advance_location_op, advance_location_machine, ask_write_back_superblock_resp_step, write_back_superblock_resp_op, answered_sync, commit_answered, write_back_superblock_resp_machine};

use super::journal_steps::sent_sync;
use super::{Kind, Machine, MachineStepped};
use layout::Geometry;
use loading::ask_which;
use ready::Ready;
use refusal::Refusal;
use superblock::{DiskOp, Superblock};
use tables::SyncTable;

// Where a commit is on disk, sync requests at State2 go to State1.
fn answered_sync(awaited: bool, t: SyncTable) -> SyncTable
    ensures { result ≡ answered_sync awaited t }
{
    if awaited {
        return t.move_states(2, 1);
    }
    t
}

impl Machine {
    // What either commit's request does: the commit is in flight, and where no entry is in memory sync requests at State3 go to State2.
    fn commit_requested(mut self, ready: Ready) -> Machine
        ensures { result ≡ commit_requested self ready }
    {
        self.sync = sent_sync(self.ready.none_in_memory(), self.sync);
        self.ready = ready;
        self
    }

    // The request of either commit: the superblock goes to the other slot.
    fn commit_sent(self, id: u64, superblock: Superblock, committing: Ready) -> MachineStepped
        ensures { result ≡ accepted (commit_op self id superblock) (commit_requested self committing) }
    {
        let which = self.ready.commit_slot();
        let next = self.commit_requested(committing);
        next.accepted(DiskOp::ReqWriteSuperblock {
            id,
            which,
            superblock,
        })
    }

    // Questions 3 and 6 of a log commit, and the superblock that is sent then.
    fn log_new(self, g: Geometry) -> Result<Superblock, Refusal>
        ensures { result ≡ ok_unless (ask_advance_log_step g self) (advanced_log self.ready) }
    {
        self.ask_kind(Kind::Ready)?;
        self.ready.advance_log(g)
    }

    // WriteBackSuperblockReq_AdvanceLog.
    pub fn write_back_superblock_req_advance_log_asked(self, g: Geometry, id: u64) -> MachineStepped
        ensures { result ≡ answered (ask_advance_log_step g self) (advance_log_op self id) (advance_log_machine self id) self }
    {
        match self.log_new(g) {
            Ok(superblock) => {
                let committing = self.ready.advance_log_next(id, superblock);
                self.commit_sent(id, superblock, committing)
            },
            Err(no) => self.refused(no),
        }
    }

    // Questions 3 and 6 of a location commit, and the superblock that is sent then.
    fn location_new(self, g: Geometry) -> Result<Superblock, Refusal>
        ensures { result ≡ ok_unless (ask_advance_location_step g self) (advanced_location g self.ready (new_location self)) }
    {
        self.ask_kind(Kind::Ready)?;
        self.ready.advance_location(g)
    }

    // WriteBackSuperblockReq_AdvanceLocation.
    pub fn write_back_superblock_req_advance_location_asked(
        self,
        g: Geometry,
        id: u64,
    ) -> MachineStepped
        ensures { result ≡ answered (ask_advance_location_step g self) (advance_location_op g self id) (advance_location_machine g self id) self }
    {
        match self.location_new(g) {
            Ok(superblock) => {
                let committing = self.ready.advance_location_next(id, superblock);
                self.commit_sent(id, superblock, committing)
            },
            Err(no) => self.refused(no),
        }
    }

    // A commit's answer at a machine at work: where it awaits the id, the commit is done and sync requests move on.
    fn commit_answered(mut self, id: u64) -> Machine
        ensures { result ≡ commit_answered self id }
    {
        self.sync = answered_sync(self.ready.awaits_superblock(id), self.sync);
        self.ready = self.ready.write_back_superblock_resp_next(id);
        self
    }

    fn superblock_answered(self, id: u64) -> Machine
        ensures { result ≡ write_back_superblock_resp_machine self id }
    {
        match self.kind {
            Kind::LoadingSuperblock | Kind::LoadingOther => self,
            Kind::Ready => self.commit_answered(id),
        }
    }

    // WriteBackSuperblockResp.
    pub fn write_back_superblock_resp_asked(self, which: u64, id: u64) -> MachineStepped
        ensures { result ≡ answered (ask_write_back_superblock_resp_step which) (write_back_superblock_resp_op which id) (write_back_superblock_resp_machine self id) self }
    {
        if let Err(no) = ask_which(which) {
            return self.refused(no);
        }
        let next = self.superblock_answered(id);
        next.accepted(DiskOp::RespWriteSuperblock { id, which })
    }
}
