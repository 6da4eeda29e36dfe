// Journal writes and their answers, after questions 1 and 2; none is a step by itself.
#![tactic(auto, using(refusal::specs::Refusal::questions, laws::specs::Choice::tests), unfolding(laws::specs::Choice::and_then, laws::specs::Choice::unless, crate::specs::Machine::answered, crate::specs::Working::sent_sync, crate::specs::Working::written_machine, crate::specs::Working::ask_write_back_journal_req_step, crate::specs::Working::write_back_journal_resp_machine, ready::specs::JournalSteps::write_back_journal_req))]

ghost use Rattle.std.specs.Prelude.{◌≡◌};
ghost use Rattle.refusal.specs.Refusal.{ok_unless};
ghost use Rattle.laws.specs.Choice.{unless};
ghost use Rattle.ready.specs.JournalSteps.{journal_write};
ghost use Rattle.machine.specs.Machine.{answered, accepted};
ghost use Rattle.machine.specs.Working.{range_op, ask_write_back_journal_req_step, write_back_journal_req_op, sent_sync, written_machine, write_back_journal_req_machine, sent_range, moved_bytes, moved_lens, write_back_journal_resp_machine};

use super::sending::send_range;
use super::{Kind, Machine, MachineStepped};
use layout::Geometry;
use ready::{Bodies, JournalWrite};
use refusal::Refusal;
use superblock::DiskOp;
use tables::SyncTable;

// What is sent, a range or a commit, moves sync requests at State3 to State2, where it moves any.
pub(crate) fn sent_sync(moves: bool, t: SyncTable) -> SyncTable
    ensures { result ≡ sent_sync moves t }
{
    if moves {
        return t.move_states(3, 2);
    }
    t
}

impl Machine {
    // So many blocks are written then.
    fn written(mut self, id1: u64, id2: Option<u64>, written: u64) -> Machine
        ensures { result ≡ written_machine self id1 id2 written }
    {
        self.sync = sent_sync(self.ready.none_frozen(), self.sync);
        self.ready = self.ready.write_back_journal_req_next(id1, id2, written);
        self
    }

    // Questions 3, 6 and 8 of a journal write, and the range that is sent then.
    fn journal_new(
        self,
        g: Geometry,
        id1: u64,
        id2: Option<u64>,
        bodies: Bodies,
    ) -> Result<JournalWrite, Refusal>
        ensures { result ≡ ok_unless (ask_write_back_journal_req_step g self id1 id2 bodies) (journal_write g self.ready bodies) }
    {
        self.ask_kind(Kind::Ready)?;
        self.ready.write_back_journal_req(g, id1, id2, bodies)
    }

    // The request of a range.
    fn range_sent(self, id1: u64, id2: Option<u64>, range: JournalWrite) -> MachineStepped
        ensures { result ≡ accepted (range_op id1 id2 range) (written_machine self id1 id2 range.written) }
    {
        let next = self.written(id1, id2, range.written);
        next.accepted(DiskOp::ReqWriteJournal {
            id1,
            id2,
            start: range.start,
            blocks: range.blocks,
        })
    }

    // WriteBackJournalReq. The range is made of what pending memory holds; whoever calls writes it and moves what is left to the front.
    pub fn write_back_journal_req_asked(
        self,
        g: Geometry,
        id1: u64,
        id2: Option<u64>,
        bodies: Bodies,
    ) -> MachineStepped
        ensures { result ≡ answered (ask_write_back_journal_req_step g self id1 id2 bodies) (write_back_journal_req_op g self id1 id2 bodies) (write_back_journal_req_machine self id1 id2 bodies) self }
    {
        match self.journal_new(g, id1, id2, bodies) {
            Ok(range) => self.range_sent(id1, id2, range),
            Err(no) => self.refused(no),
        }
    }

    // WriteBackJournalResp.
    pub fn write_back_journal_resp_asked(self, id: u64) -> Machine
        ensures { result ≡ write_back_journal_resp_machine self id }
    {
        match self.kind {
            Kind::LoadingSuperblock | Kind::LoadingOther => self,
            Kind::Ready => self.with_ready(self.ready.write_back_journal_resp_next(id)),
        }
    }

    // A journal write with its range at the front of a buffer.
    pub(crate) fn write_back_journal_req_out(
        self,
        g: Geometry,
        id1: u64,
        id2: Option<u64>,
        bodies: Bodies,
        out: &mut [u8],
        bytes: &mut [u8],
        lens: &mut [u16],
    ) -> MachineStepped
        ensures value { result ≡ answered (ask_write_back_journal_req_step g self id1 id2 bodies) (write_back_journal_req_op g self id1 id2 bodies) (write_back_journal_req_machine self id1 id2 bodies) self }
        ensures out_after { out.new ≡ unless (ask_write_back_journal_req_step g self id1 id2 bodies) out.old (sent_range self bodies bytes.old lens.old out.old 0) }
        ensures bytes_after { bytes.new ≡ unless (ask_write_back_journal_req_step g self id1 id2 bodies) bytes.old (moved_bytes self bodies bytes.old) }
        ensures lens_after { lens.new ≡ unless (ask_write_back_journal_req_step g self id1 id2 bodies) lens.old (moved_lens self bodies lens.old) }
    {
        match self.journal_new(g, id1, id2, bodies) {
            Ok(range) => {
                let sent = self.ready.sent(bodies);
                let left = self.ready.left(bodies);
                send_range(bytes, lens, sent, left, out, 0);
                self.range_sent(id1, id2, range)
            },
            Err(no) => self.refused(no),
        }
    }
}
