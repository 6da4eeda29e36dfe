// One step over the whole disk operation type of 001.
ghost use Rattle.std.specs.Prelude.{◌≡◌};
ghost use Rattle.laws.specs.Choice.{unless};
ghost use Rattle.disk.specs.Disk.{answered};
ghost use Rattle.disk.specs.Operation.{is_whole, touched_by, as_stepped, ask_decision, ask_operation, operation_next, operation_blocks, operation_marks, operation_out};
ghost use Rattle.disk.specs.Whole.{step, step_blocks, step_marks, step_out};

use super::{Disk, DiskStepped, JournalAcked, Touched};
use interval::JournalInterval;
use layout::Geometry;
use superblock::{DiskOp, JournalRead};

#[tactic(auto, unfolding(crate::specs::Operation::is_whole))]
fn is_whole(read: JournalRead) -> bool
    ensures { result ≡ is_whole read }
{
    match read {
        JournalRead::Whole => true,
        JournalRead::Damaged => false,
    }
}

#[tactic(auto, unfolding(crate::specs::Operation::touched_by))]
fn touched_by(op: DiskOp) -> Touched
    ensures { result ≡ touched_by op }
{
    match op {
        DiskOp::ReqReadSuperblock { .. } => Touched::Nothing,
        DiskOp::ReqReadJournal { .. } => Touched::Nothing,
        DiskOp::ReqWriteSuperblock { .. } => Touched::Nothing,
        DiskOp::ReqWriteJournal {
            id1,
            id2,
            start,
            blocks: len,
        } => {
            let interval = JournalInterval { start, len };
            Touched::Written { id1, id2, interval }
        }
        DiskOp::RespReadSuperblock { .. } => Touched::Nothing,
        DiskOp::RespReadJournal { id, journal } => Touched::Read { id, journal },
        DiskOp::RespWriteSuperblock { .. } => Touched::Nothing,
        DiskOp::RespWriteJournal { .. } => Touched::Nothing,
        DiskOp::NoDiskOp => Touched::Nothing,
    }
}

fn as_stepped(r: JournalAcked) -> DiskStepped
    ensures { result ≡ as_stepped r }
{
    let disk = r.disk;
    match r.answer {
        Ok(_) => disk.done(()),
        Err(no) => disk.refused(no),
    }
}

impl Disk {
    // The operation decided by value, after questions 1 and 2; no step by itself. It asks what can be asked without lent memory: of a journal
    // write not how many bytes are lent, of a read's whole answer not whether the blocks are readable.
    pub fn decide_asked(self, g: Geometry, op: DiskOp) -> DiskStepped
        ensures { result ≡ answered (ask_decision g self op) (operation_next g self op) self }
    {
        match op {
            DiskOp::ReqReadSuperblock { id, which } => self.recv_read_superblock_asked(which, id),
            DiskOp::ReqReadJournal { id, interval } => self.recv_read_journal_asked(
                g, id, interval,
            ),
            DiskOp::ReqWriteSuperblock {
                id,
                which,
                superblock,
            } => self.recv_write_superblock_asked(which, id, superblock),
            DiskOp::ReqWriteJournal {
                id1,
                id2,
                start,
                blocks: count,
            } => {
                let v = JournalInterval {
                    start: start,
                    len: count,
                };
                self.recv_write_journal_asked(g, id1, id2, v)
            }
            DiskOp::RespReadSuperblock {
                id,
                which,
                superblock,
            } => self.read_superblock_as(which, id, superblock),
            DiskOp::RespReadJournal { id, journal: _ } => self.read_journal_answered(id),
            DiskOp::RespWriteSuperblock { id, which } => self.ack_write_superblock_asked(which, id),
            DiskOp::RespWriteJournal { id } => self.ack_write_journal_asked(id),
            DiskOp::NoDiskOp => self.done(()),
        }
    }

    // The operation, after questions 1 and 2; no step by itself.
    fn operate(
        self,
        g: Geometry,
        op: DiskOp,
        new: &[u8],
        blocks: &mut [u8],
        marks: &mut [u8],
        out: &mut [u8],
    ) -> DiskStepped
        ensures value { result ≡ answered (ask_operation g self op new.now marks.old) (operation_next g self op) self }
        ensures blocks_after { blocks.new ≡ unless (ask_operation g self op new.now marks.old) blocks.old (operation_blocks op new.now blocks.old) }
        ensures marks_after { marks.new ≡ unless (ask_operation g self op new.now marks.old) marks.old (operation_marks op marks.old) }
        ensures out_after { out.new ≡ unless (ask_operation g self op new.now marks.old) out.old (operation_out self op blocks.old out.old) }
    {
        let t = touched_by(op);
        match t {
            Touched::Written { id1, id2, interval } => self.write_blocks(
                g, id1, id2, interval, new, blocks, marks,
            ),
            Touched::Read { id, journal: read } => {
                let whole = is_whole(read);
                let r = self.read_blocks(id, whole, blocks, marks, out);
                as_stepped(r)
            }
            Touched::Nothing => self.decide_asked(g, op),
        }
    }

    // One operation. A journal write's blocks are `new`; the blocks of a whole journal read go to the front of `out`.
    pub fn step(
        self,
        g: Geometry,
        op: DiskOp,
        new: &[u8],
        blocks: &mut [u8],
        marks: &mut [u8],
        out: &mut [u8],
    ) -> DiskStepped
        ensures value { result ≡ step g self op new.now blocks.old marks.old out.old }
        ensures blocks_after { blocks.new ≡ step_blocks g self op new.now blocks.old marks.old out.old }
        ensures marks_after { marks.new ≡ step_marks g self op new.now blocks.old marks.old out.old }
        ensures out_after { out.new ≡ step_out g self op new.now blocks.old marks.old out.old }
    {
        if let Err(no) = self.ask_with_buffer(g, blocks, marks, out) {
            return self.refused(no);
        }
        self.operate(g, op, new, blocks, marks, out)
    }
}
