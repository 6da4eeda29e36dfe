// Loading the journal of the selected superblock, in up to two pieces: each is asked for and answered, and once those that are there are in,
// their blocks lie in lent memory one after another, as many as the superblock's journalLen.
ghost use Rattle.std.specs.Prelude.{◌≡◌};
ghost use Rattle.refusal.specs.Refusal.{asked};
ghost use Rattle.laws.specs.Optional.{optional};
ghost use Rattle.loading.specs.Other.{selected_other, loading_other_ok, pieces_ok, front_blocks, back_blocks, interval_at, piece_at, to_pieces, ask_page_in_journal_req, page_in_journal_req_interval, page_in_journal_req_next, place_of, page_in_journal_resp_next, ask_finish_loading_other_phase, loaded_blocks};

use super::pieces::blocks_of;
use super::which::ask_which;
use super::{LoadingOther, Paged, Piece};
use interval::JournalInterval;
use layout::Geometry;
use refusal::Refusal;
use superblock::{JournalRead, Superblock, select_superblock, select_superblock_index};

impl LoadingOther {
    // The newer of two superblocks, and neither piece read.
    pub(crate) fn selected(superblock1: Superblock, superblock2: Superblock) -> LoadingOther
        ensures { result ≡ selected_other superblock1 superblock2 }
    {
        LoadingOther {
            superblock: select_superblock(superblock1, superblock2),
            whichSuperblock: select_superblock_index(superblock1, superblock2),
            front: Piece::Unread,
            back: Piece::Unread,
        }
    }

    // Question 2's test.
    pub fn ok(self, g: Geometry) -> bool
        ensures { result ≡ loading_other_ok g self }
    {
        self.superblock.well_formed(g) && self.whichSuperblock <= 1 && self.pieces_ok(g)
    }

    // Its clauses on the pieces: one that is read, or in, is there, and the two reads differ.
    fn pieces_ok(self, g: Geometry) -> bool
        ensures { result ≡ pieces_ok g self }
    {
        self.front.has_interval(self.superblock.front(g))
            && self.back.has_interval(self.superblock.back(g))
            && self.front.differs(self.back)
    }

    // The blocks of each piece, 0 where it isn't there.
    fn front_blocks(self, g: Geometry) -> u64
        ensures { result ≡ front_blocks g self.superblock }
    {
        blocks_of(self.superblock.front(g))
    }

    fn back_blocks(self, g: Geometry) -> u64
        ensures { result ≡ back_blocks g self.superblock }
    {
        blocks_of(self.superblock.back(g))
    }

    // The interval of the piece that `which` names, and the piece.
    fn interval_at(self, which: u64, g: Geometry) -> Option<JournalInterval>
        ensures { result ≡ optional (interval_at g self which) }
    {
        if which == 1 {
            return self.superblock.back(g);
        }
        self.superblock.front(g)
    }

    fn piece_at(self, which: u64) -> Piece
        ensures { result ≡ piece_at self which }
    {
        if which == 1 {
            return self.back;
        }
        self.front
    }

    fn to_pieces(self, front: Piece, back: Piece) -> LoadingOther
        ensures { result ≡ to_pieces self front back }
    {
        LoadingOther {
            front,
            back,
            ..self
        }
    }

    // PageInJournalReq: 4 `which`; 6 the piece isn't there, or isn't unread.
    pub fn ask_page_in_journal_req(self, which: u64, g: Geometry) -> Result<(), Refusal>
        ensures { result ≡ asked (ask_page_in_journal_req g self which) }
    {
        ask_which(which)?;
        if self.interval_at(which, g).is_some() && self.piece_at(which).unread() {
            return Ok(());
        }
        Err(Refusal::Condition)
    }

    // The interval to read; the empty one where the piece isn't there.
    pub fn page_in_journal_req_interval(self, which: u64, g: Geometry) -> JournalInterval
        ensures { result ≡ page_in_journal_req_interval g self which }
    {
        self.interval_at(which, g)
            .unwrap_or(JournalInterval { start: 0, len: 0 })
    }

    // The piece awaits the id; a read of the other piece under the same id is cleared.
    pub fn page_in_journal_req_next(self, which: u64, id: u64) -> LoadingOther
        ensures { result ≡ page_in_journal_req_next self which id }
    {
        if which == 1 {
            return self.to_pieces(self.front.without(id), Piece::Reading(id));
        }
        self.to_pieces(Piece::Reading(id), self.back.without(id))
    }

    // PageInJournalResp: where the blocks of the piece that awaits this id are to lie. The back piece lies behind the front's blocks.
    pub fn place_of(self, id: u64, g: Geometry) -> Paged
        ensures { result ≡ place_of g self id }
    {
        let first = self.front_blocks(g);
        if self.front.reads(id) {
            return Paged {
                place: 0,
                len: first,
            };
        }
        if self.back.reads(id) {
            return Paged {
                place: first,
                len: self.back_blocks(g),
            };
        }
        Paged { place: 0, len: 0 }
    }

    // The piece that awaits the id is in, or unread again if the answer is damaged.
    pub fn page_in_journal_resp_next(self, id: u64, read: JournalRead) -> LoadingOther
        ensures { result ≡ page_in_journal_resp_next self id read }
    {
        let piece = Piece::of_read(read);
        if self.front.reads(id) {
            return self.to_pieces(piece, self.back);
        }
        if self.back.reads(id) {
            return self.to_pieces(self.front, piece);
        }
        self
    }

    // FinishLoadingOtherPhase: 6 unless the pieces that are there are in.
    pub fn ask_finish_loading_other_phase(self, g: Geometry) -> Result<(), Refusal>
        ensures { result ≡ asked (ask_finish_loading_other_phase g self) }
    {
        if self.front.loaded(self.superblock.front(g))
            && self.back.loaded(self.superblock.back(g))
        {
            return Ok(());
        }
        Err(Refusal::Condition)
    }

    // How many blocks are then loaded.
    pub fn loaded_blocks(self) -> u64
        ensures { result ≡ loaded_blocks self }
    {
        self.superblock.journalLen
    }
}
