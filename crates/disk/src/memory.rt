// The two operations that touch lent blocks, after questions 1 and 2: a journal write, and a journal read's answer.
ghost use Rattle.std.specs.Prelude.{◌≡◌};
ghost use Rattle.refusal.specs.Refusal.{asked};
ghost use Rattle.laws.specs.Choice.{unless};
ghost use Rattle.journal.specs.Memory.{update_bytes, update_marks};
ghost use Rattle.disk.specs.Disk.{answered, answered_with};
ghost use Rattle.disk.specs.Next.{recv_write_journal_next, ack_read_journal_next};
ghost use Rattle.requests.specs.Acknowledge.{held_interval, ask_ack_read_journal};
ghost use Rattle.disk.specs.Memory.{ask_new_blocks, read_out};

use super::{Disk, DiskStepped, JournalAcked};
use interval::JournalInterval;
use layout::Geometry;
use refusal::Refusal;
use requests::{ask_recv_write_journal, write_received};
use tables::IntervalTable;

// Questions 4 to 9 of a journal write whose blocks are `new`.
fn ask_new_blocks(
    g: Geometry,
    table: IntervalTable,
    id1: u64,
    id2: Option<u64>,
    v: JournalInterval,
    new: &[u8],
) -> Result<(), Refusal>
    ensures { result ≡ asked (ask_new_blocks g table id1 id2 v new.now) }
{
    journal::ask_size(v, new)?;
    ask_recv_write_journal(g, table, id1, id2, v)
}

// Where the answer is whole, the interval's blocks go to the front of `out`.
fn read_out(whole: bool, v: JournalInterval, blocks: &[u8], out: &mut [u8])
    ensures { out.new ≡ read_out whole v blocks.now out.old }
{
    if whole {
        journal::copy_blocks(blocks, v.start, v.len, out, 0);
    }
}

impl Disk {
    // The write's rows, then its blocks and their marks.
    pub(crate) fn write_blocks(
        mut self,
        g: Geometry,
        id1: u64,
        id2: Option<u64>,
        v: JournalInterval,
        new: &[u8],
        blocks: &mut [u8],
        marks: &mut [u8],
    ) -> DiskStepped
        ensures value { result ≡ answered (ask_new_blocks g self.journalWrites id1 id2 v new.now) (recv_write_journal_next g self id1 id2 v) self }
        ensures blocks_after { blocks.new ≡ unless (ask_new_blocks g self.journalWrites id1 id2 v new.now) blocks.old (update_bytes blocks.old v new.now) }
        ensures marks_after { marks.new ≡ unless (ask_new_blocks g self.journalWrites id1 id2 v new.now) marks.old (update_marks marks.old v) }
    {
        let table = self.journalWrites;
        if let Err(no) = ask_new_blocks(g, table, id1, id2, v, new) {
            return self.refused(no);
        }
        let next = write_received(g, table, id1, id2, v);
        self.journalWrites = next;
        journal::write_blocks(v, new, blocks);
        journal::set_marks(v, marks);
        self.done(())
    }

    // The answer, then the blocks of the read.
    pub(crate) fn read_blocks(
        self,
        id: u64,
        whole: bool,
        blocks: &[u8],
        marks: &[u8],
        out: &mut [u8],
    ) -> JournalAcked
        ensures value { result ≡ answered_with (ask_ack_read_journal self.journalReads id whole marks.now) (held_interval self.journalReads id) (ack_read_journal_next self id) self }
        ensures out_after { out.new ≡ unless (ask_ack_read_journal self.journalReads id whole marks.now) out.old (read_out whole (held_interval self.journalReads id) blocks.now out.old) }
    {
        let r = self.ack_read_journal_asked(id, whole, marks);
        if let Ok(v) = r.answer {
            read_out(whole, v, blocks, out);
        }
        r
    }
}
