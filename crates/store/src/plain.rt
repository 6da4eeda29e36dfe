// The steps that leave lent memory alone, after questions 1 and 2; none is a step by itself.
ghost use Rattle.std.specs.Prelude.{◌≡◌};
ghost use Rattle.store.specs.Steps.{journal_written, commit_log, commit_location, superblock_written, read_journal, read_superblock, superblock_read, finish_superblocks, freeze, receive, push_sync, pop_sync, no_op, ask_again, land};

use super::{Store, StoreStepped};
use layout::{Geometry, Location};
use machine::MachineStepped;
use superblock::DiskOp;

impl Store {
    // WriteBackJournalResp.
    pub fn write_back_journal_resp_asked(self, g: Geometry, id: u64) -> StoreStepped
        ensures { result ≡ journal_written g self id }
    {
        let m = self.machine;
        let next = m.write_back_journal_resp_asked(id);
        let stepped = MachineStepped {
            answer: Ok(DiskOp::RespWriteJournal { id }),
            machine: next,
        };
        self.both(g, stepped)
    }

    // WriteBackSuperblockReq_AdvanceLog.
    pub fn write_back_superblock_req_advance_log_asked(self, g: Geometry, id: u64) -> StoreStepped
        ensures { result ≡ commit_log g self id }
    {
        let m = self.machine;
        let stepped = m.write_back_superblock_req_advance_log_asked(g, id);
        self.both(g, stepped)
    }

    // WriteBackSuperblockReq_AdvanceLocation.
    pub fn write_back_superblock_req_advance_location_asked(
        self,
        g: Geometry,
        id: u64,
    ) -> StoreStepped
        ensures { result ≡ commit_location g self id }
    {
        let m = self.machine;
        let stepped = m.write_back_superblock_req_advance_location_asked(g, id);
        self.both(g, stepped)
    }

    // WriteBackSuperblockResp: of the slot whose write in flight has the id.
    pub fn write_back_superblock_resp_asked(self, g: Geometry, id: u64) -> StoreStepped
        ensures { result ≡ superblock_written g self id }
    {
        let m = self.machine;
        let d = self.disk;
        let writes = d.superblockWrites;
        let which = writes.slot_of(id);
        let stepped = m.write_back_superblock_resp_asked(which, id);
        self.both(g, stepped)
    }

    // PageInJournalReq.
    pub fn page_in_journal_req_asked(self, g: Geometry, which: u64, id: u64) -> StoreStepped
        ensures { result ≡ read_journal g self which id }
    {
        let m = self.machine;
        let stepped = m.page_in_journal_req_asked(g, which, id);
        self.both(g, stepped)
    }

    // PageInSuperblockReq.
    pub fn page_in_superblock_req_asked(self, g: Geometry, which: u64, id: u64) -> StoreStepped
        ensures { result ≡ read_superblock g self which id }
    {
        let m = self.machine;
        let stepped = m.page_in_superblock_req_asked(which, id);
        self.both(g, stepped)
    }

    // PageInSuperblockResp: whole, with what the slot holds.
    pub fn page_in_superblock_resp_asked(
        self,
        g: Geometry,
        which: u64,
        id: u64,
        whole: bool,
    ) -> StoreStepped
        ensures { result ≡ superblock_read g self which id whole }
    {
        let m = self.machine;
        let d = self.disk;
        let read = d.content(which, whole);
        let stepped = m.page_in_superblock_resp_asked(g, which, id, read);
        self.both(g, stepped)
    }

    // FinishLoadingSuperblockPhase.
    pub fn finish_loading_superblock_phase_asked(self, g: Geometry) -> StoreStepped
        ensures { result ≡ finish_superblocks g self }
    {
        let m = self.machine;
        let stepped = m.finish_loading_superblock_phase_asked();
        self.both(g, stepped)
    }

    // Freeze.
    pub fn freeze_asked(self, g: Geometry) -> StoreStepped
        ensures { result ≡ freeze g self }
    {
        let m = self.machine;
        let stepped = m.freeze_asked();
        self.both(g, stepped)
    }

    // ReceiveFrozenLoc.
    pub fn receive_frozen_loc_asked(self, g: Geometry, loc: Location) -> StoreStepped
        ensures { result ≡ receive g self loc }
    {
        let m = self.machine;
        let stepped = m.receive_frozen_loc_asked(g, loc);
        self.both(g, stepped)
    }

    // PushSyncReq.
    pub fn push_sync_req_asked(self, g: Geometry, id: u64) -> StoreStepped
        ensures { result ≡ push_sync g self id }
    {
        let m = self.machine;
        let stepped = m.push_sync_req_asked(id);
        self.both(g, stepped)
    }

    // PopSyncReq.
    pub fn pop_sync_req_asked(self, g: Geometry, id: u64) -> StoreStepped
        ensures { result ≡ pop_sync g self id }
    {
        let m = self.machine;
        let stepped = m.pop_sync_req_asked(id);
        self.both(g, stepped)
    }

    // NoOp.
    pub fn no_op_asked(self, g: Geometry) -> StoreStepped
        ensures { result ≡ no_op g self }
    {
        let m = self.machine;
        let stepped = MachineStepped {
            answer: Ok(DiskOp::NoDiskOp),
            machine: m,
        };
        self.both(g, stepped)
    }

    // Ask again.
    pub fn ask_again_asked(self, g: Geometry, which: u64) -> StoreStepped
        ensures { result ≡ ask_again g self which }
    {
        let m = self.machine;
        let stepped = m.ask_again_asked(which);
        self.both(g, stepped)
    }

    // A landing: the machine sees nothing of it.
    #[tactic(auto, unfolding(crate::specs::Store::answered, disk::specs::Disk::answered_with))]
    pub fn land_asked(self, which: u64) -> StoreStepped
        ensures { result ≡ land self which }
    {
        let d = self.disk.land_asked(which);
        match d.answer {
            Err(no) => self.refused(no),
            Ok(_) => {
                let next = Store {
                    machine: self.machine,
                    disk: d.disk,
                };
                next.accepted(DiskOp::NoDiskOp)
            },
        }
    }
}
