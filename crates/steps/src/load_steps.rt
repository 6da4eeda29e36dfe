// The steps of a store that loads, whole: questions 1 and 2, then the machine's and the disk's, then the lent memory. A refusal hands the store back
// and alters no lent byte.
ghost use Rattle.std.specs.Prelude.{◌≡◌};
ghost use Rattle.store.specs.Lent.{lent, lent_of};
ghost use Rattle.store.specs.Whole.{page_in_journal_req, page_in_journal_resp, page_in_journal_resp_lent, page_in_superblock_req, page_in_superblock_resp, finish_loading_superblock_phase, finish_loading_other_phase, finish_loading_other_phase_lent, ask_again};

use layout::Geometry;
use store::{Lent, Store, StoreStepped};

// PageInJournalReq.
pub fn page_in_journal_req(
    s: Store,
    g: Geometry,
    which: u64,
    id: u64,
    lent: Lent<'_>,
) -> StoreStepped
    ensures { result ≡ page_in_journal_req g (lent_of lent.entry) s which id }
{
    if let Err(no) = s.ask_state(g, lent) {
        return s.refused(no);
    }
    s.page_in_journal_req_asked(g, which, id)
}

// PageInJournalResp: whole, the disk's own blocks go to the place of the piece that awaits them.
pub fn page_in_journal_resp<'a>(
    s: Store,
    g: Geometry,
    id: u64,
    whole: bool,
    bytes: &'a [u8],
    lens: &'a [u16],
    pieces: &mut [u8],
    rbytes: &'a [u8],
    rlens: &'a [u16],
    blocks: &'a [u8],
    marks: &'a [u8],
) -> StoreStepped
    ensures value { result ≡ page_in_journal_resp g (lent bytes.now lens.now pieces.old rbytes.now rlens.now blocks.now marks.now) s id whole }
    ensures pieces_after { pieces.new ≡ (page_in_journal_resp_lent g (lent bytes.now lens.now pieces.old rbytes.now rlens.now blocks.now marks.now) s id whole).pieces }
{
    let machine = machine::Lent {
        bytes,
        lens,
        pieces,
        rbytes,
        rlens,
    };
    let lent = Lent {
        machine,
        blocks,
        marks,
    };
    if let Err(no) = s.ask_state(g, lent) {
        return s.refused(no);
    }
    s.page_in_journal_resp_asked(g, id, whole, pieces, blocks, marks)
}

// PageInSuperblockReq.
pub fn page_in_superblock_req(
    s: Store,
    g: Geometry,
    which: u64,
    id: u64,
    lent: Lent<'_>,
) -> StoreStepped
    ensures { result ≡ page_in_superblock_req g (lent_of lent.entry) s which id }
{
    if let Err(no) = s.ask_state(g, lent) {
        return s.refused(no);
    }
    s.page_in_superblock_req_asked(g, which, id)
}

// PageInSuperblockResp: whole, with what the slot holds.
pub fn page_in_superblock_resp(
    s: Store,
    g: Geometry,
    which: u64,
    id: u64,
    whole: bool,
    lent: Lent<'_>,
) -> StoreStepped
    ensures { result ≡ page_in_superblock_resp g (lent_of lent.entry) s which id whole }
{
    if let Err(no) = s.ask_state(g, lent) {
        return s.refused(no);
    }
    s.page_in_superblock_resp_asked(g, which, id, whole)
}

// FinishLoadingSuperblockPhase.
pub fn finish_loading_superblock_phase(s: Store, g: Geometry, lent: Lent<'_>) -> StoreStepped
    ensures { result ≡ finish_loading_superblock_phase g (lent_of lent.entry) s }
{
    if let Err(no) = s.ask_state(g, lent) {
        return s.refused(no);
    }
    s.finish_loading_superblock_phase_asked(g)
}

// FinishLoadingOtherPhase: the entries of the loaded blocks go to replay memory.
pub fn finish_loading_other_phase<'a>(
    s: Store,
    g: Geometry,
    bytes: &'a [u8],
    lens: &'a [u16],
    pieces: &'a [u8],
    rbytes: &mut [u8],
    rlens: &mut [u16],
    blocks: &'a [u8],
    marks: &'a [u8],
) -> StoreStepped
    ensures value { result ≡ finish_loading_other_phase g (lent bytes.now lens.now pieces.now rbytes.old rlens.old blocks.now marks.now) s }
    ensures rbytes_after { rbytes.new ≡ (finish_loading_other_phase_lent g (lent bytes.now lens.now pieces.now rbytes.old rlens.old blocks.now marks.now) s).rbytes }
    ensures rlens_after { rlens.new ≡ (finish_loading_other_phase_lent g (lent bytes.now lens.now pieces.now rbytes.old rlens.old blocks.now marks.now) s).rlens }
{
    let machine = machine::Lent {
        bytes,
        lens,
        pieces,
        rbytes,
        rlens,
    };
    let lent = Lent {
        machine,
        blocks,
        marks,
    };
    if let Err(no) = s.ask_state(g, lent) {
        return s.refused(no);
    }
    s.finish_loading_other_phase_asked(g, pieces, rbytes, rlens)
}

// Ask again.
pub fn ask_again(s: Store, g: Geometry, which: u64, lent: Lent<'_>) -> StoreStepped
    ensures { result ≡ ask_again g (lent_of lent.entry) s which }
{
    if let Err(no) = s.ask_state(g, lent) {
        return s.refused(no);
    }
    s.ask_again_asked(g, which)
}
