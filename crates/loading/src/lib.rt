// The machine while it loads (source 000): what its two loading kinds hold, what their steps ask and do. The public face:
//   LoadingSuperblock   the two superblock slots, each an enum: unasked, awaited under an id, read, or corrupt
//   LoadingOther        the selected superblock and the two pieces of the journal, each unread, awaited under an id, or in
//   Paged               where in lent memory the piece that a journal answer brings in is to lie
// A step of the machine is more than what is here: it asks questions 1, 2 and 3 first. Here are question 2's test of each record (`ok`), a
// step's own questions (`ask_x`, in document 01's order) and its effect on the record (`x_next`). Every function is total.
#![tactic(auto, using(refusal::specs::Refusal::questions, laws::specs::Choice::tests), unfolding(laws::specs::Choice::and_then, laws::specs::Choice::ask, laws::specs::Choice::also, crate::specs::Which::ask_which, crate::specs::Other::selected_other, crate::specs::Other::front_blocks, crate::specs::Other::back_blocks, crate::specs::Other::pieces_ok, crate::specs::Other::loading_other_ok, crate::specs::Other::ask_page_in_journal_req, crate::specs::Other::page_in_journal_req_interval, crate::specs::Other::page_in_journal_req_next, crate::specs::Other::place_of, crate::specs::Other::page_in_journal_resp_next, crate::specs::Other::ask_finish_loading_other_phase, crate::specs::Superblocks::loading_superblock_ok, crate::specs::Superblocks::ask_page_in_superblock_req, crate::specs::Superblocks::page_in_superblock_req_next, crate::specs::Superblocks::superblock_awaited, crate::specs::Superblocks::page_in_superblock_resp_next, crate::specs::Superblocks::ask_finish_loading_superblock_phase, crate::specs::Superblocks::finish_loading_superblock_phase_next, crate::specs::Superblocks::ask_ask_again, crate::specs::Superblocks::ask_again_next))]

mod other;
mod pieces;
mod slots;
mod superblocks;
mod which;

use superblock::Superblock;
pub use which::ask_which;

// The two slots while the superblocks are read.
#[derive(Clone, Copy)]
pub struct LoadingSuperblock {
    pub first: SlotRead,
    pub second: SlotRead,
}

// The id that is awaited, how the read ended and what it brought are one enum, so that a slot whose read has ended awaits nothing.
#[derive(Clone, Copy)]
pub enum SlotRead {
    Unasked,
    Awaited(u64),
    Success(Superblock),
    Corruption,
}

// The selected superblock, and the two pieces of its journal while they are read.
#[derive(Clone, Copy)]
pub struct LoadingOther {
    pub superblock: Superblock,
    pub whichSuperblock: u64,
    pub front: Piece,
    pub back: Piece,
}

// Where the blocks of an answer go: from block `place` of lent memory on, `len` of them; none where nobody awaits the answer.
#[derive(Clone, Copy)]
pub struct Paged {
    pub place: u64,
    pub len: u64,
}

// A piece that is in awaits nothing; its blocks lie in lent memory.
#[derive(Clone, Copy)]
pub enum Piece {
    Unread,
    Reading(u64),
    In,
}
