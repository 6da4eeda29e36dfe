// The loading steps of the machine, whole: questions 1 and 2, then the others, then the lent memory. A refusal hands the machine back and alters
// no lent byte.
#![tactic(auto, using(refusal::specs::Refusal::questions, laws::specs::Choice::tests), unfolding(laws::specs::Choice::and_then, laws::specs::Choice::unless, crate::specs::Machine::answered, crate::specs::Whole::ask_paged, crate::specs::Whole::ask_finish, crate::specs::Loading::paged_pieces))]

ghost use Rattle.std.specs.Prelude.{◌≡◌};
ghost use Rattle.refusal.specs.Refusal.{asked};
ghost use Rattle.machine.specs.Machine.{accepted};
ghost use Rattle.machine.specs.Lent.{lent, lent_of};
ghost use Rattle.machine.specs.Loading.{paged_in, paged_pieces, page_in_journal_resp_op, page_in_journal_resp_machine};
ghost use Rattle.machine.specs.Whole.{page_in_journal_req, ask_paged, page_in_journal_resp, page_in_journal_resp_pieces, page_in_superblock_req, page_in_superblock_resp, finish_loading_superblock_phase, finish_loading_other_phase, finished_bytes, finished_lens, ask_again};

use super::loading_steps::ask_piece;
use super::{Lent, Machine, MachineStepped};
use journal::copy_blocks;
use layout::Geometry;
use refusal::Refusal;
use superblock::{DiskOp, JournalRead, Superblock};

impl Machine {
    // PageInJournalReq.
    pub fn page_in_journal_req(
        self,
        g: Geometry,
        which: u64,
        id: u64,
        lent: Lent<'_>,
    ) -> MachineStepped
        ensures { result ≡ page_in_journal_req g (lent_of lent.entry) self which id }
    {
        if let Err(no) = self.ask_state(g, lent) {
            return self.refused(no);
        }
        self.page_in_journal_req_asked(g, which, id)
    }

    // PageInJournalResp: the blocks that were read are `new`. Where a piece awaits them they go to its place in `pieces`.
    pub fn page_in_journal_resp(
        self,
        g: Geometry,
        id: u64,
        read: JournalRead,
        new: &[u8],
        bytes: &[u8],
        lens: &[u16],
        pieces: &mut [u8],
        rbytes: &[u8],
        rlens: &[u16],
    ) -> MachineStepped
        ensures value { result ≡ page_in_journal_resp g (lent bytes.now lens.now pieces.old rbytes.now rlens.now) self id read new.now }
        ensures pieces_after { pieces.new ≡ page_in_journal_resp_pieces g (lent bytes.now lens.now pieces.old rbytes.now rlens.now) self id read new.now }
    {
        let lent = Lent {
            bytes,
            lens,
            pieces,
            rbytes,
            rlens,
        };
        if let Err(no) = self.ask_paged(g, id, read, new, lent) {
            return self.refused(no);
        }
        self.copy_paged(g, id, read, new, pieces);
        self.journal_read(id, read)
    }

    // The blocks of an answer go to the place of the piece that awaits them.
    fn copy_paged(self, g: Geometry, id: u64, read: JournalRead, new: &[u8], pieces: &mut [u8])
        ensures { pieces.new ≡ paged_pieces (paged_in g self id read) new.now pieces.old }
    {
        let p = self.paged_in(g, id, read);
        copy_blocks(new, 0, p.len, pieces, p.place);
    }

    fn journal_read(self, id: u64, read: JournalRead) -> MachineStepped
        ensures { result ≡ accepted (page_in_journal_resp_op id read) (page_in_journal_resp_machine self id read) }
    {
        let next = self.page_in_journal_resp_asked(id, read);
        next.accepted(DiskOp::RespReadJournal { id, journal: read })
    }

    fn ask_paged(
        self,
        g: Geometry,
        id: u64,
        read: JournalRead,
        new: &[u8],
        lent: Lent<'_>,
    ) -> Result<(), Refusal>
        ensures { result ≡ asked (ask_paged g (lent_of lent.entry) self id read new.now) }
    {
        self.ask_state(g, lent)?;
        let p = self.paged_in(g, id, read);
        ask_piece(p, new)
    }

    // PageInSuperblockReq.
    pub fn page_in_superblock_req(
        self,
        g: Geometry,
        which: u64,
        id: u64,
        lent: Lent<'_>,
    ) -> MachineStepped
        ensures { result ≡ page_in_superblock_req g (lent_of lent.entry) self which id }
    {
        if let Err(no) = self.ask_state(g, lent) {
            return self.refused(no);
        }
        self.page_in_superblock_req_asked(which, id)
    }

    // PageInSuperblockResp.
    pub fn page_in_superblock_resp(
        self,
        g: Geometry,
        which: u64,
        id: u64,
        read: Option<Superblock>,
        lent: Lent<'_>,
    ) -> MachineStepped
        ensures { result ≡ page_in_superblock_resp g (lent_of lent.entry) self which id read }
    {
        if let Err(no) = self.ask_state(g, lent) {
            return self.refused(no);
        }
        self.page_in_superblock_resp_asked(g, which, id, read)
    }

    // FinishLoadingSuperblockPhase.
    pub fn finish_loading_superblock_phase(self, g: Geometry, lent: Lent<'_>) -> MachineStepped
        ensures { result ≡ finish_loading_superblock_phase g (lent_of lent.entry) self }
    {
        if let Err(no) = self.ask_state(g, lent) {
            return self.refused(no);
        }
        self.finish_loading_superblock_phase_asked()
    }

    // FinishLoadingOtherPhase: the entries of the loaded blocks go to replay memory.
    pub fn finish_loading_other_phase(
        self,
        g: Geometry,
        bytes: &[u8],
        lens: &[u16],
        pieces: &[u8],
        rbytes: &mut [u8],
        rlens: &mut [u16],
    ) -> MachineStepped
        ensures value { result ≡ finish_loading_other_phase g (lent bytes.now lens.now pieces.now rbytes.old rlens.old) self }
        ensures rbytes_after { rbytes.new ≡ finished_bytes g (lent bytes.now lens.now pieces.now rbytes.old rlens.old) self }
        ensures rlens_after { rlens.new ≡ finished_lens g (lent bytes.now lens.now pieces.now rbytes.old rlens.old) self }
    {
        let lent = Lent {
            bytes,
            lens,
            pieces,
            rbytes,
            rlens,
        };
        if let Err(no) = self.ask_state(g, lent) {
            return self.refused(no);
        }
        self.finish_loading_other_phase_asked(g, pieces, rbytes, rlens)
    }

    // Ask again.
    pub fn ask_again(self, g: Geometry, which: u64, lent: Lent<'_>) -> MachineStepped
        ensures { result ≡ ask_again g (lent_of lent.entry) self which }
    {
        if let Err(no) = self.ask_state(g, lent) {
            return self.refused(no);
        }
        self.ask_again_asked(which)
    }
}
