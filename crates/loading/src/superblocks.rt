// Loading the superblocks: both slots are asked for and answered, a corrupt one can be asked for again, and once both have been read the
// newer superblock is selected.
ghost use Rattle.std.specs.Prelude.{◌≡◌};
ghost use Rattle.refusal.specs.Refusal.{asked};
ghost use Rattle.loading.specs.Superblocks.{initial, loading_superblock_ok, slot_at, other_slot, to_slot, ask_page_in_superblock_req, page_in_superblock_req_next, superblock_awaited, page_in_superblock_resp_next, ask_finish_loading_superblock_phase, finish_loading_superblock_phase_next, ask_ask_again, ask_again_next};

use super::which::ask_which;
use super::{LoadingOther, LoadingSuperblock, SlotRead};
use layout::Geometry;
use refusal::Refusal;
use superblock::Superblock;

impl LoadingSuperblock {
    // 000's `Init`: neither slot has been asked for.
    pub fn initial() -> LoadingSuperblock
        ensures { result ≡ initial }
    {
        LoadingSuperblock {
            first: SlotRead::Unasked,
            second: SlotRead::Unasked,
        }
    }

    // Question 2's test.
    pub fn ok(self, g: Geometry) -> bool
        ensures { result ≡ loading_superblock_ok g self }
    {
        self.first.success_wf(g) && self.second.success_wf(g) && self.first.differs(self.second)
    }

    // The slot that `which` names, and the other one.
    fn slot(self, which: u64) -> SlotRead
        ensures { result ≡ slot_at self which }
    {
        if which == 1 {
            return self.second;
        }
        self.first
    }

    fn other_slot(self, which: u64) -> SlotRead
        ensures { result ≡ other_slot self which }
    {
        if which == 1 {
            return self.first;
        }
        self.second
    }

    fn to_slot(self, which: u64, slot: SlotRead) -> LoadingSuperblock
        ensures { result ≡ to_slot self which slot }
    {
        if which == 1 {
            return LoadingSuperblock {
                second: slot,
                ..self
            };
        }
        LoadingSuperblock {
            first: slot,
            ..self
        }
    }

    // PageInSuperblockReq: 4 `which`; 5 the other slot awaits this id; 6 the slot was asked for already.
    pub fn ask_page_in_superblock_req(self, which: u64, id: u64) -> Result<(), Refusal>
        ensures { result ≡ asked (ask_page_in_superblock_req self which id) }
    {
        ask_which(which)?;
        if self.other_slot(which).awaits(id) {
            return Err(Refusal::Id);
        }
        if self.slot(which).unasked() {
            return Ok(());
        }
        Err(Refusal::Condition)
    }

    pub fn page_in_superblock_req_next(self, which: u64, id: u64) -> LoadingSuperblock
        ensures { result ≡ page_in_superblock_req_next self which id }
    {
        self.to_slot(which, SlotRead::Awaited(id))
    }

    // PageInSuperblockResp: does the slot await this id? If not, the answer alters nothing.
    pub fn awaits(self, which: u64, id: u64) -> bool
        ensures { result ≡ superblock_awaited self which id }
    {
        self.slot(which).awaits(id)
    }

    pub fn page_in_superblock_resp_next(
        self,
        which: u64,
        id: u64,
        read: Option<Superblock>,
        g: Geometry,
    ) -> LoadingSuperblock
        ensures { result ≡ page_in_superblock_resp_next g self which id read }
    {
        if self.awaits(which, id) {
            return self.to_slot(which, SlotRead::of_read(read, g));
        }
        self
    }

    // FinishLoadingSuperblockPhase: 6 unless both slots have been read.
    pub fn ask_finish_loading_superblock_phase(self) -> Result<(), Refusal>
        ensures { result ≡ asked (ask_finish_loading_superblock_phase self) }
    {
        if self.first.succeeded() && self.second.succeeded() {
            return Ok(());
        }
        Err(Refusal::Condition)
    }

    // What loading goes on with: the selected superblock, and no piece. `other` is as it was where a slot has no superblock.
    pub fn finish_loading_superblock_phase_next(self, other: LoadingOther) -> LoadingOther
        ensures { result ≡ finish_loading_superblock_phase_next self other }
    {
        match (self.first.holds(), self.second.holds()) {
            (Some(superblock1), Some(superblock2)) => LoadingOther::selected(
                superblock1,
                superblock2,
            ),
            _ => other,
        }
    }

    // Ask again: 4 `which`; 6 the slot isn't corrupt.
    pub fn ask_ask_again(self, which: u64) -> Result<(), Refusal>
        ensures { result ≡ asked (ask_ask_again self which) }
    {
        ask_which(which)?;
        if self.slot(which).corrupt() {
            return Ok(());
        }
        Err(Refusal::Condition)
    }

    pub fn ask_again_next(self, which: u64) -> LoadingSuperblock
        ensures { result ≡ ask_again_next self which }
    {
        self.to_slot(which, SlotRead::Unasked)
    }
}
