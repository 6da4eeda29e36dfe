// The steps of work of the machine, whole: questions 1 and 2, then the others, then the lent memory. A refusal hands the machine back and alters
// no lent byte.
#![tactic(auto, using(refusal::specs::Refusal::questions, laws::specs::Choice::tests), unfolding(laws::specs::Choice::and_then, laws::specs::Choice::unless, crate::specs::Machine::answered, crate::specs::Whole::ask_write, crate::specs::Whole::ask_add))]

ghost use Rattle.std.specs.Prelude.{◌≡◌};
ghost use Rattle.machine.specs.Lent.{lent, lent_of};
ghost use Rattle.machine.specs.Whole.{write_back_journal_req, written_out, written_bytes, written_lens, write_back_journal_resp, advance_log, advance_location, write_back_superblock_resp, freeze, receive_frozen_loc, advance, advanced_bytes, advanced_lens, replay, push_sync_req, pop_sync_req, no_op};

use super::{Lent, Machine, MachineStepped};
use layout::{Geometry, Location};
use superblock::DiskOp;

impl Machine {
    // WriteBackJournalReq: the range goes to the front of `out`, a buffer of N blocks.
    pub fn write_back_journal_req(
        self,
        g: Geometry,
        id1: u64,
        id2: Option<u64>,
        out: &mut [u8],
        bytes: &mut [u8],
        lens: &mut [u16],
        pieces: &[u8],
        rbytes: &[u8],
        rlens: &[u16],
    ) -> MachineStepped
        ensures value { result ≡ write_back_journal_req g (lent bytes.old lens.old pieces.now rbytes.now rlens.now) self id1 id2 out.old }
        ensures out_after { out.new ≡ written_out g (lent bytes.old lens.old pieces.now rbytes.now rlens.now) self id1 id2 out.old }
        ensures bytes_after { bytes.new ≡ written_bytes g (lent bytes.old lens.old pieces.now rbytes.now rlens.now) self id1 id2 out.old }
        ensures lens_after { lens.new ≡ written_lens g (lent bytes.old lens.old pieces.now rbytes.now rlens.now) self id1 id2 out.old }
    {
        let lent = Lent {
            bytes,
            lens,
            pieces,
            rbytes,
            rlens,
        };
        match self.ask_with_buffer(g, out, lent) {
            Ok(bodies) => self.write_back_journal_req_out(g, id1, id2, bodies, out, bytes, lens),
            Err(no) => self.refused(no),
        }
    }

    // WriteBackJournalResp.
    pub fn write_back_journal_resp(self, g: Geometry, id: u64, lent: Lent<'_>) -> MachineStepped
        ensures { result ≡ write_back_journal_resp g (lent_of lent.entry) self id }
    {
        if let Err(no) = self.ask_state(g, lent) {
            return self.refused(no);
        }
        let next = self.write_back_journal_resp_asked(id);
        next.accepted(DiskOp::RespWriteJournal { id })
    }

    // WriteBackSuperblockReq_AdvanceLog.
    pub fn write_back_superblock_req_advance_log(
        self,
        g: Geometry,
        id: u64,
        lent: Lent<'_>,
    ) -> MachineStepped
        ensures { result ≡ advance_log g (lent_of lent.entry) self id }
    {
        if let Err(no) = self.ask_state(g, lent) {
            return self.refused(no);
        }
        self.write_back_superblock_req_advance_log_asked(g, id)
    }

    // WriteBackSuperblockReq_AdvanceLocation.
    pub fn write_back_superblock_req_advance_location(
        self,
        g: Geometry,
        id: u64,
        lent: Lent<'_>,
    ) -> MachineStepped
        ensures { result ≡ advance_location g (lent_of lent.entry) self id }
    {
        if let Err(no) = self.ask_state(g, lent) {
            return self.refused(no);
        }
        self.write_back_superblock_req_advance_location_asked(g, id)
    }

    // WriteBackSuperblockResp.
    pub fn write_back_superblock_resp(
        self,
        g: Geometry,
        which: u64,
        id: u64,
        lent: Lent<'_>,
    ) -> MachineStepped
        ensures { result ≡ write_back_superblock_resp g (lent_of lent.entry) self which id }
    {
        if let Err(no) = self.ask_state(g, lent) {
            return self.refused(no);
        }
        self.write_back_superblock_resp_asked(which, id)
    }

    // Freeze.
    pub fn freeze(self, g: Geometry, lent: Lent<'_>) -> MachineStepped
        ensures { result ≡ freeze g (lent_of lent.entry) self }
    {
        if let Err(no) = self.ask_state(g, lent) {
            return self.refused(no);
        }
        self.freeze_asked()
    }

    // ReceiveFrozenLoc.
    pub fn receive_frozen_loc(self, g: Geometry, loc: Location, lent: Lent<'_>) -> MachineStepped
        ensures { result ≡ receive_frozen_loc g (lent_of lent.entry) self loc }
    {
        if let Err(no) = self.ask_state(g, lent) {
            return self.refused(no);
        }
        self.receive_frozen_loc_asked(g, loc)
    }

    // Advance: the first k entries of what the caller brings come behind the pending ones.
    pub fn advance(
        self,
        g: Geometry,
        brought: &[u8],
        sizes: &[u16],
        k: u64,
        bytes: &mut [u8],
        lens: &mut [u16],
        pieces: &[u8],
        rbytes: &[u8],
        rlens: &[u16],
    ) -> MachineStepped
        ensures value { result ≡ advance g (lent bytes.old lens.old pieces.now rbytes.now rlens.now) self brought.now sizes.now k }
        ensures bytes_after { bytes.new ≡ advanced_bytes g (lent bytes.old lens.old pieces.now rbytes.now rlens.now) self brought.now sizes.now k }
        ensures lens_after { lens.new ≡ advanced_lens g (lent bytes.old lens.old pieces.now rbytes.now rlens.now) self brought.now sizes.now k }
    {
        let lent = Lent {
            bytes,
            lens,
            pieces,
            rbytes,
            rlens,
        };
        match self.ask(g, lent) {
            Ok(bodies) => self.advance_asked(bodies, brought, sizes, k, bytes, lens),
            Err(no) => self.refused(no),
        }
    }

    // Replay.
    pub fn replay(
        self,
        g: Geometry,
        brought: &[u8],
        sizes: &[u16],
        k: u64,
        lent: Lent<'_>,
    ) -> MachineStepped
        ensures { result ≡ replay g (lent_of lent.entry) self brought.now sizes.now k }
    {
        if let Err(no) = self.ask_state(g, lent) {
            return self.refused(no);
        }
        self.replay_asked(lent.rbytes, lent.rlens, brought, sizes, k)
    }

    // PushSyncReq.
    pub fn push_sync_req(self, g: Geometry, id: u64, lent: Lent<'_>) -> MachineStepped
        ensures { result ≡ push_sync_req g (lent_of lent.entry) self id }
    {
        if let Err(no) = self.ask_state(g, lent) {
            return self.refused(no);
        }
        self.push_sync_req_asked(id)
    }

    // PopSyncReq.
    pub fn pop_sync_req(self, g: Geometry, id: u64, lent: Lent<'_>) -> MachineStepped
        ensures { result ≡ pop_sync_req g (lent_of lent.entry) self id }
    {
        if let Err(no) = self.ask_state(g, lent) {
            return self.refused(no);
        }
        self.pop_sync_req_asked(id)
    }

    // NoOp.
    pub fn no_op(self, g: Geometry, lent: Lent<'_>) -> MachineStepped
        ensures { result ≡ no_op g (lent_of lent.entry) self }
    {
        if let Err(no) = self.ask_state(g, lent) {
            return self.refused(no);
        }
        self.accepted(DiskOp::NoDiskOp)
    }
}
