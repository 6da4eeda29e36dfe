// Sync requests, after questions 1 and 2; neither is a step by itself.
#![tactic(auto, using(refusal::specs::Refusal::questions, laws::specs::Choice::tests), unfolding(laws::specs::Choice::and_then, laws::specs::Choice::ask, crate::specs::Machine::answered, crate::specs::Sync::ask_push_sync_req, crate::specs::Sync::push_sync_req_machine, crate::specs::Sync::ask_pop_sync_req, crate::specs::Sync::pop_sync_req_machine))]

ghost use Rattle.std.specs.Prelude.{◌≡◌};
ghost use Rattle.refusal.specs.Refusal.{asked};
ghost use Rattle.superblock.specs.declared.DiskOp.TheVariants.{NoDiskOp};
ghost use Rattle.machine.specs.Machine.{answered};
ghost use Rattle.machine.specs.Sync.{ask_push_sync_req, push_sync_req_machine, ask_pop_sync_req, pop_sync_req_machine};

use super::{Machine, MachineStepped};
use refusal::Refusal;
use superblock::DiskOp;
use tables::SyncTable;

// Questions 5 and 6 of a pop.
fn ask_pop_sync_req(t: SyncTable, id: u64) -> Result<(), Refusal>
    ensures { result ≡ asked (ask_pop_sync_req t id) }
{
    if !t.has(id) {
        return Err(Refusal::Id);
    }
    if t.state(id) != 1 {
        return Err(Refusal::Condition);
    }
    Ok(())
}

fn ask_push_sync_req(t: SyncTable, id: u64) -> Result<(), Refusal>
    ensures { result ≡ asked (ask_push_sync_req t id) }
{
    t.ask_add(id, Machine::MOST_SYNC_REQS)
}

impl Machine {
    // PushSyncReq: it begins at State3.
    pub fn push_sync_req_asked(mut self, id: u64) -> MachineStepped
        ensures { result ≡ answered (ask_push_sync_req self.sync id) NoDiskOp (push_sync_req_machine self id) self }
    {
        if let Err(no) = ask_push_sync_req(self.sync, id) {
            return self.refused(no);
        }
        self.sync = self.sync.add(id, 3);
        self.accepted(DiskOp::NoDiskOp)
    }

    // PopSyncReq.
    pub fn pop_sync_req_asked(mut self, id: u64) -> MachineStepped
        ensures { result ≡ answered (ask_pop_sync_req self.sync id) NoDiskOp (pop_sync_req_machine self id) self }
    {
        if let Err(no) = ask_pop_sync_req(self.sync, id) {
            return self.refused(no);
        }
        self.sync = self.sync.remove(self.sync.place(id));
        self.accepted(DiskOp::NoDiskOp)
    }
}
