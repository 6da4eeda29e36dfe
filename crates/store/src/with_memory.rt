// The steps that look at lent memory or alter it, after questions 1 and 2; none is a step by itself. Memory is altered after the last yes.
ghost use Rattle.std.specs.Prelude.{◌≡◌, take, drop};
ghost use Rattle.laws.specs.Choice.{unless};
ghost use Rattle.laws.specs.Splice.{splice};
ghost use Rattle.superblock.specs.declared.DiskOp.TheVariants.{NoDiskOp};
ghost use Rattle.journal.specs.Memory.{update_marks};
ghost use Rattle.memory.specs.Given.{memory, count_of};
ghost use Rattle.writer.specs.Ring.{put_range};
ghost use Rattle.machine.specs.Loading.{ask_loaded, loaded_replay_bytes, loaded_replay_lens};
ghost use Rattle.machine.specs.Working.{moved_bytes, moved_lens, given_of, ask_advance_step, appended_bytes, appended_lens};
ghost use Rattle.crash.specs.Picture.{crashed_blocks, crashed_marks};
ghost use Rattle.store.specs.Store.{accepted};
ghost use Rattle.store.specs.Steps.{interval_of, ask_write_journal, write_journal, written_blocks, written_marks, read_of, ask_journal_read, journal_read, read_pieces, finish_other, add, replay, crashed};

use super::{Store, StoreStepped};
use crash::{crash_memory, no_requests};
use interval::JournalInterval;
use journal::{copy_blocks, set_marks};
use layout::Geometry;
use machine::{Machine, send_range};
use memory::Count;
use ready::Bodies;
use superblock::{DiskOp, JournalRead};

// The interval of a journal write; none of any other operation.
fn interval_of(op: DiskOp) -> JournalInterval
    ensures { result ≡ interval_of op }
{
    match op {
        DiskOp::ReqWriteJournal {
            id1: _,
            id2: _,
            start,
            blocks: count,
        } => JournalInterval {
            start: start,
            len: count,
        },
        DiskOp::ReqReadSuperblock { id: _, which: _ } => JournalInterval { start: 0, len: 0 },
        DiskOp::ReqReadJournal { id: _, interval: _ } => JournalInterval { start: 0, len: 0 },
        DiskOp::ReqWriteSuperblock {
            id: _,
            which: _,
            superblock: _,
        } => JournalInterval { start: 0, len: 0 },
        DiskOp::RespReadSuperblock {
            id: _,
            which: _,
            superblock: _,
        } => JournalInterval { start: 0, len: 0 },
        DiskOp::RespReadJournal { id: _, journal: _ } => JournalInterval { start: 0, len: 0 },
        DiskOp::RespWriteSuperblock { id: _, which: _ } => JournalInterval { start: 0, len: 0 },
        DiskOp::RespWriteJournal { id: _ } => JournalInterval { start: 0, len: 0 },
        DiskOp::NoDiskOp => JournalInterval { start: 0, len: 0 },
    }
}

fn read_of(whole: bool) -> JournalRead
    ensures { result ≡ read_of whole }
{
    if whole {
        return JournalRead::Whole;
    }
    JournalRead::Damaged
}

// The range of what is sent goes into the ring, its blocks' marks become 1, and what is left of pending memory moves to its front.
fn write_range(
    op: DiskOp,
    sent: Count,
    left: Count,
    bytes: &mut [u8],
    lens: &mut [u16],
    blocks: &mut [u8],
    marks: &mut [u8],
)
    ensures bytes_after { bytes.new ≡ splice bytes.old 0 (take left.bytes (drop sent.bytes bytes.old)) }
    ensures lens_after { lens.new ≡ splice lens.old 0 (take left.entries (drop sent.entries lens.old)) }
    ensures blocks_after { blocks.new ≡ put_range bytes.old lens.old sent.entries sent.bytes blocks.old (interval_of op).start }
    ensures marks_after { marks.new ≡ update_marks marks.old (interval_of op) }
{
    let v = interval_of(op);
    send_range(bytes, lens, sent, left, blocks, v.start);
    set_marks(v, marks);
}

impl Store {
    // WriteBackJournalReq: the range goes from pending memory into the ring, and what is left of pending memory moves to its front.
    pub fn write_back_journal_req_asked(
        self,
        g: Geometry,
        id1: u64,
        id2: Option<u64>,
        bodies: Bodies,
        bytes: &mut [u8],
        lens: &mut [u16],
        blocks: &mut [u8],
        marks: &mut [u8],
    ) -> StoreStepped
        ensures value { result ≡ write_journal g self id1 id2 bodies }
        ensures bytes_after { bytes.new ≡ unless (ask_write_journal g self id1 id2 bodies) bytes.old (moved_bytes self.machine bodies bytes.old) }
        ensures lens_after { lens.new ≡ unless (ask_write_journal g self id1 id2 bodies) lens.old (moved_lens self.machine bodies lens.old) }
        ensures blocks_after { blocks.new ≡ unless (ask_write_journal g self id1 id2 bodies) blocks.old (written_blocks g self bodies bytes.old lens.old blocks.old) }
        ensures marks_after { marks.new ≡ unless (ask_write_journal g self id1 id2 bodies) marks.old (written_marks g self bodies marks.old) }
    {
        let m = self.machine;
        let ready = m.ready;
        let sent = ready.sent(bodies);
        let left = ready.left(bodies);
        let stepped = m.write_back_journal_req_asked(g, id1, id2, bodies);
        let r = self.both(g, stepped);
        match r.answer {
            Err(_) => r,
            Ok(op) => {
                write_range(op, sent, left, bytes, lens, blocks, marks);
                r
            },
        }
    }

    // PageInJournalResp: whole, the disk's own blocks go to the place of the piece that awaits them.
    #[tactic(auto, unfolding(laws::specs::Choice::unless, crate::specs::Store::answered, crate::specs::Steps::ask_journal_read, disk::specs::Disk::answered_with))]
    pub fn page_in_journal_resp_asked(
        self,
        g: Geometry,
        id: u64,
        whole: bool,
        pieces: &mut [u8],
        blocks: &[u8],
        marks: &[u8],
    ) -> StoreStepped
        ensures value { result ≡ journal_read self id whole marks.now }
        ensures pieces_after { pieces.new ≡ unless (ask_journal_read self id whole marks.now) pieces.old (read_pieces g self id whole blocks.now pieces.old) }
    {
        let read = read_of(whole);
        let m = self.machine;
        let d = self.disk;
        let e = d.ack_read_journal_asked(id, whole, marks);
        match e.answer {
            Err(no) => self.refused(no),
            Ok(v) => {
                let p = m.paged_in(g, id, read);
                copy_blocks(blocks, v.start, p.len, pieces, p.place);
                let machine = m.page_in_journal_resp_asked(id, read);
                let disk = e.disk;
                let next = Store { machine, disk };
                next.accepted(DiskOp::RespReadJournal { id, journal: read })
            },
        }
    }

    // FinishLoadingOtherPhase. Nothing is asked of the disk.
    pub fn finish_loading_other_phase_asked(
        self,
        g: Geometry,
        pieces: &[u8],
        rbytes: &mut [u8],
        rlens: &mut [u16],
    ) -> StoreStepped
        ensures value { result ≡ finish_other g self pieces.now rbytes.old rlens.old }
        ensures rbytes_after { rbytes.new ≡ unless (ask_loaded g self.machine pieces.now rbytes.old rlens.old) rbytes.old (loaded_replay_bytes self.machine pieces.now rbytes.old) }
        ensures rlens_after { rlens.new ≡ unless (ask_loaded g self.machine pieces.now rbytes.old rlens.old) rlens.old (loaded_replay_lens self.machine pieces.now rlens.old) }
    {
        let m = self.machine;
        let stepped = m.finish_loading_other_phase_asked(g, pieces, rbytes, rlens);
        self.both(g, stepped)
    }

    // Advance. Nothing is asked of the disk.
    pub fn advance_asked(
        self,
        g: Geometry,
        bodies: Bodies,
        brought: &[u8],
        sizes: &[u16],
        k: u64,
        bytes: &mut [u8],
        lens: &mut [u16],
    ) -> StoreStepped
        ensures value { result ≡ add g self bodies brought.now sizes.now k }
        ensures bytes_after { bytes.new ≡ unless (ask_advance_step self.machine bodies (given_of brought.now sizes.now k)) bytes.old (appended_bytes bodies (count_of (memory brought.now sizes.now k)) brought.now bytes.old) }
        ensures lens_after { lens.new ≡ unless (ask_advance_step self.machine bodies (given_of brought.now sizes.now k)) lens.old (appended_lens self.machine (count_of (memory brought.now sizes.now k)) sizes.now lens.old) }
    {
        let m = self.machine;
        let stepped = m.advance_asked(bodies, brought, sizes, k, bytes, lens);
        self.both(g, stepped)
    }

    // Replay.
    pub fn replay_asked(
        self,
        g: Geometry,
        rbytes: &[u8],
        rlens: &[u16],
        brought: &[u8],
        sizes: &[u16],
        k: u64,
    ) -> StoreStepped
        ensures { result ≡ replay g self rbytes.now rlens.now brought.now sizes.now k }
    {
        let m = self.machine;
        let stepped = m.replay_asked(rbytes, rlens, brought, sizes, k);
        self.both(g, stepped)
    }

    // The machine begins anew, and no request is left.
    fn crashed(self) -> Store
        ensures { result ≡ crashed self }
    {
        let d = self.disk;
        let machine = Machine::initial();
        let disk = no_requests(d);
        Store { machine, disk }
    }

    // The crash whose picture is the disk's own content: no byte is altered.
    pub fn crash_in_place_asked(self) -> StoreStepped
        ensures { result ≡ accepted NoDiskOp (crashed self) }
    {
        let next = self.crashed();
        next.accepted(DiskOp::NoDiskOp)
    }

    // The crash with a picture.
    pub fn crash_asked(
        self,
        picture: &[u8],
        pictured: &[u8],
        blocks: &mut [u8],
        marks: &mut [u8],
    ) -> StoreStepped
        ensures value { result ≡ accepted NoDiskOp (crashed self) }
        ensures blocks_after { blocks.new ≡ crashed_blocks self.disk.journalWrites picture.now blocks.old }
        ensures marks_after { marks.new ≡ crashed_marks self.disk.journalWrites pictured.now marks.old }
    {
        let d = self.disk;
        let writes = d.journalWrites;
        crash_memory(writes, picture, pictured, blocks, marks);
        self.crash_in_place_asked()
    }
}
