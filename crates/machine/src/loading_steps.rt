// The steps of a machine that loads, after questions 1 and 2; none is a step by itself.
#![tactic(auto, using(refusal::specs::Refusal::questions, laws::specs::Choice::tests), unfolding(laws::specs::Choice::and_then, laws::specs::Choice::unless, crate::specs::Machine::answered, crate::specs::Loading::ask_page_in_journal_req_step, crate::specs::Loading::page_in_journal_req_machine, crate::specs::Loading::paged_in, crate::specs::Loading::ask_piece, crate::specs::Loading::page_in_journal_resp_machine, crate::specs::Loading::ask_page_in_superblock_req_step, crate::specs::Loading::page_in_superblock_req_machine, crate::specs::Loading::page_in_superblock_resp_machine, crate::specs::Loading::ask_finish_loading_superblock_phase_step, crate::specs::Loading::finish_loading_superblock_phase_machine, crate::specs::Loading::ask_finish_loading_other_phase_step, crate::specs::Loading::ask_loaded, crate::specs::Loading::loaded_machine, crate::specs::Loading::ask_ask_again_step, crate::specs::Loading::ask_again_machine))]

ghost use Rattle.std.specs.Prelude.{◌≡◌};
ghost use Rattle.refusal.specs.Refusal.{asked};
ghost use Rattle.laws.specs.Choice.{unless};
ghost use Rattle.superblock.specs.declared.DiskOp.TheVariants.{NoDiskOp};
ghost use Rattle.laws.specs.Splice.{splice};
ghost use Rattle.laws.specs.Cut.{flat, lengths};
ghost use Rattle.range.specs.Form.{all_entries};
ghost use Rattle.unpacker.specs.Unpack.{ask_unpack};
ghost use Rattle.reader.specs.Answer.{scanned};
ghost use Rattle.machine.specs.Machine.{answered, accepted};
ghost use Rattle.machine.specs.Loading.{first_blocks, loaded_bytes, ask_page_in_journal_req_step, page_in_journal_req_op, page_in_journal_req_machine, whole_place, paged_in, ask_piece, page_in_journal_resp_machine, ask_page_in_superblock_req_step, page_in_superblock_req_op, page_in_superblock_req_machine, ask_page_in_superblock_resp_step, page_in_superblock_resp_op, page_in_superblock_resp_machine, ask_finish_loading_superblock_phase_step, finish_loading_superblock_phase_machine, ask_finish_loading_other_phase_step, ask_loaded, loaded_machine, finish_loading_other_phase_machine, loaded_replay_bytes, loaded_replay_lens, ask_ask_again_step, ask_again_machine};

use super::{Kind, Machine, MachineStepped};
use interval::JournalInterval;
use journal::{ask_size, bytes_of};
use layout::Geometry;
use loading::{Paged, ask_which};
use memory::Count;
use ready::Ready;
use refusal::Refusal;
use superblock::{DiskOp, JournalRead, Superblock};
use unpacker::unpack;

fn whole_place(read: JournalRead, p: Paged) -> Paged
    ensures { result ≡ whole_place read p }
{
    match read {
        JournalRead::Whole => p,
        JournalRead::Damaged => Paged { place: 0, len: 0 },
    }
}

// Question 4 of the blocks of an answer: as many as the piece that awaits them has; any where nobody does.
pub(crate) fn ask_piece(p: Paged, new: &[u8]) -> Result<(), Refusal>
    ensures { result ≡ asked (ask_piece p new.now) }
{
    if p.len == 0 {
        return Ok(());
    }
    let v = JournalInterval {
        start: p.place,
        len: p.len,
    };
    ask_size(v, new)
}

// The first blocks of the pieces, unpacked to replay memory.
fn unpack_blocks(
    blocks: u64,
    pieces: &[u8],
    rbytes: &mut [u8],
    rlens: &mut [u16],
) -> Result<Count, Refusal>
    ensures value { result ≡ scanned (ask_unpack (first_blocks blocks pieces.now) rbytes.old rlens.old) (all_entries (first_blocks blocks pieces.now)) }
    ensures rbytes_after { rbytes.new ≡ unless (ask_unpack (first_blocks blocks pieces.now) rbytes.old rlens.old) rbytes.old (splice rbytes.old 0 (flat (all_entries (first_blocks blocks pieces.now)))) }
    ensures rlens_after { rlens.new ≡ unless (ask_unpack (first_blocks blocks pieces.now) rbytes.old rlens.old) rlens.old (splice rlens.old 0 (lengths (all_entries (first_blocks blocks pieces.now)))) }
{
    let n = bytes_of(blocks, pieces.len());
    unpack(&pieces[0..n], rbytes, rlens)
}

impl Machine {
    fn ask_page_in_journal_req(self, g: Geometry, which: u64) -> Result<(), Refusal>
        ensures { result ≡ asked (ask_page_in_journal_req_step g self which) }
    {
        self.ask_kind(Kind::LoadingOther)?;
        self.other.ask_page_in_journal_req(which, g)
    }

    // PageInJournalReq.
    pub fn page_in_journal_req_asked(mut self, g: Geometry, which: u64, id: u64) -> MachineStepped
        ensures { result ≡ answered (ask_page_in_journal_req_step g self which) (page_in_journal_req_op g self which id) (page_in_journal_req_machine self which id) self }
    {
        if let Err(no) = self.ask_page_in_journal_req(g, which) {
            return self.refused(no);
        }
        let interval = self.other.page_in_journal_req_interval(which, g);
        self.other = self.other.page_in_journal_req_next(which, id);
        self.accepted(DiskOp::ReqReadJournal { id, interval })
    }

    // PageInJournalResp: where in lent memory the answer's blocks go.
    pub fn paged_in(self, g: Geometry, id: u64, read: JournalRead) -> Paged
        ensures { result ≡ paged_in g self id read }
    {
        match self.kind {
            Kind::LoadingOther => whole_place(read, self.other.place_of(id, g)),
            Kind::LoadingSuperblock | Kind::Ready => Paged { place: 0, len: 0 },
        }
    }

    // The machine after it. Whoever calls copies the blocks.
    pub fn page_in_journal_resp_asked(mut self, id: u64, read: JournalRead) -> Machine
        ensures { result ≡ page_in_journal_resp_machine self id read }
    {
        if self.kind == Kind::LoadingOther {
            self.other = self.other.page_in_journal_resp_next(id, read);
        }
        self
    }

    fn ask_page_in_superblock_req(self, which: u64, id: u64) -> Result<(), Refusal>
        ensures { result ≡ asked (ask_page_in_superblock_req_step self which id) }
    {
        self.ask_kind(Kind::LoadingSuperblock)?;
        self.superblocks.ask_page_in_superblock_req(which, id)
    }

    // PageInSuperblockReq.
    pub fn page_in_superblock_req_asked(mut self, which: u64, id: u64) -> MachineStepped
        ensures { result ≡ answered (ask_page_in_superblock_req_step self which id) (page_in_superblock_req_op which id) (page_in_superblock_req_machine self which id) self }
    {
        if let Err(no) = self.ask_page_in_superblock_req(which, id) {
            return self.refused(no);
        }
        self.superblocks = self.superblocks.page_in_superblock_req_next(which, id);
        self.accepted(DiskOp::ReqReadSuperblock { id, which })
    }

    fn superblock_paged_in(
        mut self,
        g: Geometry,
        which: u64,
        id: u64,
        read: Option<Superblock>,
    ) -> Machine
        ensures { result ≡ page_in_superblock_resp_machine g self which id read }
    {
        if self.kind == Kind::LoadingSuperblock {
            self.superblocks = self
                .superblocks
                .page_in_superblock_resp_next(which, id, read, g);
        }
        self
    }

    // PageInSuperblockResp.
    pub fn page_in_superblock_resp_asked(
        self,
        g: Geometry,
        which: u64,
        id: u64,
        read: Option<Superblock>,
    ) -> MachineStepped
        ensures { result ≡ answered (ask_page_in_superblock_resp_step which) (page_in_superblock_resp_op which id read) (page_in_superblock_resp_machine g self which id read) self }
    {
        if let Err(no) = ask_which(which) {
            return self.refused(no);
        }
        let next = self.superblock_paged_in(g, which, id, read);
        next.accepted(DiskOp::RespReadSuperblock {
            id,
            which,
            superblock: read,
        })
    }

    fn ask_finish_loading_superblock_phase(self) -> Result<(), Refusal>
        ensures { result ≡ asked (ask_finish_loading_superblock_phase_step self) }
    {
        self.ask_kind(Kind::LoadingSuperblock)?;
        self.superblocks.ask_finish_loading_superblock_phase()
    }

    // FinishLoadingSuperblockPhase.
    pub fn finish_loading_superblock_phase_asked(self) -> MachineStepped
        ensures { result ≡ answered (ask_finish_loading_superblock_phase_step self) NoDiskOp (finish_loading_superblock_phase_machine self) self }
    {
        if let Err(no) = self.ask_finish_loading_superblock_phase() {
            return self.refused(no);
        }
        let selected = self
            .superblocks
            .finish_loading_superblock_phase_next(self.other);
        self.to_other(selected).accepted(DiskOp::NoDiskOp)
    }

    // FinishLoadingOtherPhase: questions 3 and 6.
    fn ask_finish_loading_other_phase(self, g: Geometry) -> Result<(), Refusal>
        ensures { result ≡ asked (ask_finish_loading_other_phase_step g self) }
    {
        self.ask_kind(Kind::LoadingOther)?;
        self.other.ask_finish_loading_other_phase(g)
    }

    // The machine at work that so many replay entries make of it.
    fn loaded(self, replay: u64) -> Machine
        ensures { result ≡ loaded_machine self replay }
    {
        let other = self.other;
        self.to_ready(Ready::loaded(other.superblock, other.whichSuperblock, replay))
    }

    // Questions 3, 6 and 7 of the loaded blocks: their entries go to replay memory. Question 7, the last one, is asked as they are unpacked.
    fn unpacked(
        self,
        g: Geometry,
        pieces: &[u8],
        rbytes: &mut [u8],
        rlens: &mut [u16],
    ) -> Result<Count, Refusal>
        ensures value { result ≡ scanned (ask_loaded g self pieces.now rbytes.old rlens.old) (all_entries (loaded_bytes self pieces.now)) }
        ensures rbytes_after { rbytes.new ≡ unless (ask_loaded g self pieces.now rbytes.old rlens.old) rbytes.old (loaded_replay_bytes self pieces.now rbytes.old) }
        ensures rlens_after { rlens.new ≡ unless (ask_loaded g self pieces.now rbytes.old rlens.old) rlens.old (loaded_replay_lens self pieces.now rlens.old) }
    {
        self.ask_finish_loading_other_phase(g)?;
        unpack_blocks(self.other.loaded_blocks(), pieces, rbytes, rlens)
    }

    // The machine at work, from what was unpacked.
    fn at_work(self, entries: u64) -> MachineStepped
        ensures { result ≡ accepted NoDiskOp (loaded_machine self entries) }
    {
        self.loaded(entries).accepted(DiskOp::NoDiskOp)
    }

    // The entries of the loaded blocks are the replay.
    pub fn finish_loading_other_phase_asked(
        self,
        g: Geometry,
        pieces: &[u8],
        rbytes: &mut [u8],
        rlens: &mut [u16],
    ) -> MachineStepped
        ensures value { result ≡ answered (ask_loaded g self pieces.now rbytes.old rlens.old) NoDiskOp (finish_loading_other_phase_machine self pieces.now) self }
        ensures rbytes_after { rbytes.new ≡ unless (ask_loaded g self pieces.now rbytes.old rlens.old) rbytes.old (loaded_replay_bytes self pieces.now rbytes.old) }
        ensures rlens_after { rlens.new ≡ unless (ask_loaded g self pieces.now rbytes.old rlens.old) rlens.old (loaded_replay_lens self pieces.now rlens.old) }
    {
        match self.unpacked(g, pieces, rbytes, rlens) {
            Ok(replay) => self.at_work(replay.entries),
            Err(no) => self.refused(no),
        }
    }

    fn ask_ask_again(self, which: u64) -> Result<(), Refusal>
        ensures { result ≡ asked (ask_ask_again_step self which) }
    {
        self.ask_kind(Kind::LoadingSuperblock)?;
        self.superblocks.ask_ask_again(which)
    }

    // Ask again.
    pub fn ask_again_asked(mut self, which: u64) -> MachineStepped
        ensures { result ≡ answered (ask_ask_again_step self which) NoDiskOp (ask_again_machine self which) self }
    {
        if let Err(no) = self.ask_ask_again(which) {
            return self.refused(no);
        }
        self.superblocks = self.superblocks.ask_again_next(which);
        self.accepted(DiskOp::NoDiskOp)
    }
}
