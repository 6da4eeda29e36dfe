// The steps of a store at work, whole: questions 1 and 2, then the machine's and the disk's, then the lent memory. A refusal hands the store back and
// alters no lent byte. A slice that is lent shared is not altered by the step.
ghost use Rattle.std.specs.Prelude.{◌≡◌};
ghost use Rattle.store.specs.Lent.{lent, lent_of};
ghost use Rattle.store.specs.Whole.{write_back_journal_req, write_back_journal_req_lent, write_back_journal_resp, advance_log, advance_location, write_back_superblock_resp, freeze, receive_frozen_loc, advance, advance_lent, replay, push_sync_req, pop_sync_req, no_op};

use layout::{Geometry, Location};
use store::{Lent, Store, StoreStepped};

// WriteBackJournalReq: the range goes from pending memory into the ring, and what is left of pending memory moves to its front.
pub fn write_back_journal_req(
    s: Store,
    g: Geometry,
    id1: u64,
    id2: Option<u64>,
    bytes: &mut [u8],
    lens: &mut [u16],
    pieces: &[u8],
    rbytes: &[u8],
    rlens: &[u16],
    blocks: &mut [u8],
    marks: &mut [u8],
) -> StoreStepped
    ensures value { result ≡ write_back_journal_req g (lent bytes.old lens.old pieces.now rbytes.now rlens.now blocks.old marks.old) s id1 id2 }
    ensures bytes_after { bytes.new ≡ (write_back_journal_req_lent g (lent bytes.old lens.old pieces.now rbytes.now rlens.now blocks.old marks.old) s id1 id2).bytes }
    ensures lens_after { lens.new ≡ (write_back_journal_req_lent g (lent bytes.old lens.old pieces.now rbytes.now rlens.now blocks.old marks.old) s id1 id2).lens }
    ensures blocks_after { blocks.new ≡ (write_back_journal_req_lent g (lent bytes.old lens.old pieces.now rbytes.now rlens.now blocks.old marks.old) s id1 id2).blocks }
    ensures marks_after { marks.new ≡ (write_back_journal_req_lent g (lent bytes.old lens.old pieces.now rbytes.now rlens.now blocks.old marks.old) s id1 id2).marks }
{
    let machine = machine::Lent {
        bytes,
        lens,
        pieces,
        rbytes,
        rlens,
    };
    let lent = Lent {
        machine,
        blocks,
        marks,
    };
    match s.ask(g, lent) {
        Err(no) => s.refused(no),
        Ok(bodies) => s.write_back_journal_req_asked(
            g, id1, id2, bodies, bytes, lens, blocks, marks,
        ),
    }
}

// WriteBackJournalResp.
pub fn write_back_journal_resp(s: Store, g: Geometry, id: u64, lent: Lent<'_>) -> StoreStepped
    ensures { result ≡ write_back_journal_resp g (lent_of lent.entry) s id }
{
    if let Err(no) = s.ask_state(g, lent) {
        return s.refused(no);
    }
    s.write_back_journal_resp_asked(g, id)
}

// WriteBackSuperblockReq_AdvanceLog.
pub fn write_back_superblock_req_advance_log(
    s: Store,
    g: Geometry,
    id: u64,
    lent: Lent<'_>,
) -> StoreStepped
    ensures { result ≡ advance_log g (lent_of lent.entry) s id }
{
    if let Err(no) = s.ask_state(g, lent) {
        return s.refused(no);
    }
    s.write_back_superblock_req_advance_log_asked(g, id)
}

// WriteBackSuperblockReq_AdvanceLocation.
pub fn write_back_superblock_req_advance_location(
    s: Store,
    g: Geometry,
    id: u64,
    lent: Lent<'_>,
) -> StoreStepped
    ensures { result ≡ advance_location g (lent_of lent.entry) s id }
{
    if let Err(no) = s.ask_state(g, lent) {
        return s.refused(no);
    }
    s.write_back_superblock_req_advance_location_asked(g, id)
}

// WriteBackSuperblockResp: of the slot whose write in flight has the id.
pub fn write_back_superblock_resp(s: Store, g: Geometry, id: u64, lent: Lent<'_>) -> StoreStepped
    ensures { result ≡ write_back_superblock_resp g (lent_of lent.entry) s id }
{
    if let Err(no) = s.ask_state(g, lent) {
        return s.refused(no);
    }
    s.write_back_superblock_resp_asked(g, id)
}

// Freeze.
pub fn freeze(s: Store, g: Geometry, lent: Lent<'_>) -> StoreStepped
    ensures { result ≡ freeze g (lent_of lent.entry) s }
{
    if let Err(no) = s.ask_state(g, lent) {
        return s.refused(no);
    }
    s.freeze_asked(g)
}

// ReceiveFrozenLoc.
pub fn receive_frozen_loc(s: Store, g: Geometry, loc: Location, lent: Lent<'_>) -> StoreStepped
    ensures { result ≡ receive_frozen_loc g (lent_of lent.entry) s loc }
{
    if let Err(no) = s.ask_state(g, lent) {
        return s.refused(no);
    }
    s.receive_frozen_loc_asked(g, loc)
}

// Advance: the first k entries of what the caller brings come behind the pending ones.
pub fn advance<'a>(
    s: Store,
    g: Geometry,
    brought: &[u8],
    sizes: &[u16],
    k: u64,
    bytes: &mut [u8],
    lens: &mut [u16],
    pieces: &'a [u8],
    rbytes: &'a [u8],
    rlens: &'a [u16],
    blocks: &'a [u8],
    marks: &'a [u8],
) -> StoreStepped
    ensures value { result ≡ advance g (lent bytes.old lens.old pieces.now rbytes.now rlens.now blocks.now marks.now) s brought.now sizes.now k }
    ensures bytes_after { bytes.new ≡ (advance_lent g (lent bytes.old lens.old pieces.now rbytes.now rlens.now blocks.now marks.now) s brought.now sizes.now k).bytes }
    ensures lens_after { lens.new ≡ (advance_lent g (lent bytes.old lens.old pieces.now rbytes.now rlens.now blocks.now marks.now) s brought.now sizes.now k).lens }
{
    let machine = machine::Lent {
        bytes,
        lens,
        pieces,
        rbytes,
        rlens,
    };
    let lent = Lent {
        machine,
        blocks,
        marks,
    };
    match s.ask(g, lent) {
        Err(no) => s.refused(no),
        Ok(bodies) => s.advance_asked(g, bodies, brought, sizes, k, bytes, lens),
    }
}

// Replay: the first k entries of what the caller brings are the next of the replay.
pub fn replay(
    s: Store,
    g: Geometry,
    brought: &[u8],
    sizes: &[u16],
    k: u64,
    lent: Lent<'_>,
) -> StoreStepped
    ensures { result ≡ replay g (lent_of lent.entry) s brought.now sizes.now k }
{
    if let Err(no) = s.ask_state(g, lent) {
        return s.refused(no);
    }
    s.replay_asked(
        g,
        lent.machine.rbytes,
        lent.machine.rlens,
        brought,
        sizes,
        k,
    )
}

// PushSyncReq.
pub fn push_sync_req(s: Store, g: Geometry, id: u64, lent: Lent<'_>) -> StoreStepped
    ensures { result ≡ push_sync_req g (lent_of lent.entry) s id }
{
    if let Err(no) = s.ask_state(g, lent) {
        return s.refused(no);
    }
    s.push_sync_req_asked(g, id)
}

// PopSyncReq.
pub fn pop_sync_req(s: Store, g: Geometry, id: u64, lent: Lent<'_>) -> StoreStepped
    ensures { result ≡ pop_sync_req g (lent_of lent.entry) s id }
{
    if let Err(no) = s.ask_state(g, lent) {
        return s.refused(no);
    }
    s.pop_sync_req_asked(g, id)
}

// NoOp.
pub fn no_op(s: Store, g: Geometry, lent: Lent<'_>) -> StoreStepped
    ensures { result ≡ no_op g (lent_of lent.entry) s }
{
    if let Err(no) = s.ask_state(g, lent) {
        return s.refused(no);
    }
    s.no_op_asked(g)
}
