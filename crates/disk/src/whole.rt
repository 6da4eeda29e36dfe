// The disk's operations, whole: questions 1 and 2, then the others, then the lent memory. A refusal hands the disk back and alters no lent
// byte.
ghost use Rattle.std.specs.Prelude.{◌≡◌};
ghost use Rattle.disk.specs.Whole.{recv_read_superblock, recv_read_journal, recv_write_superblock, recv_write_journal, recv_write_journal_blocks, recv_write_journal_marks, ack_read_superblock, ack_read_journal, ack_read_journal_out, ack_write_superblock, ack_write_journal, land};

use super::{Disk, DiskStepped, JournalAcked, SuperblockAcked};
use interval::JournalInterval;
use layout::Geometry;
use superblock::Superblock;

impl Disk {
    // A read of a superblock is received.
    pub fn recv_read_superblock(
        self,
        g: Geometry,
        which: u64,
        id: u64,
        blocks: &[u8],
        marks: &[u8],
    ) -> DiskStepped
        ensures { result ≡ recv_read_superblock g self which id blocks.now marks.now }
    {
        if let Err(no) = self.ask(g, blocks, marks) {
            return self.refused(no);
        }
        self.recv_read_superblock_asked(which, id)
    }

    // A read of journal blocks is received.
    pub fn recv_read_journal(
        self,
        g: Geometry,
        id: u64,
        v: JournalInterval,
        blocks: &[u8],
        marks: &[u8],
    ) -> DiskStepped
        ensures { result ≡ recv_read_journal g self id v blocks.now marks.now }
    {
        if let Err(no) = self.ask(g, blocks, marks) {
            return self.refused(no);
        }
        self.recv_read_journal_asked(g, id, v)
    }

    // A write of a superblock is received. It takes the place of an older one.
    pub fn recv_write_superblock(
        self,
        g: Geometry,
        which: u64,
        id: u64,
        superblock: Superblock,
        blocks: &[u8],
        marks: &[u8],
    ) -> DiskStepped
        ensures { result ≡ recv_write_superblock g self which id superblock blocks.now marks.now }
    {
        if let Err(no) = self.ask(g, blocks, marks) {
            return self.refused(no);
        }
        self.recv_write_superblock_asked(which, id, superblock)
    }

    // A write of journal blocks is received: `new`, any whole blocks, from block `start` on, going round. The blocks change now.
    pub fn recv_write_journal(
        self,
        g: Geometry,
        id1: u64,
        id2: Option<u64>,
        start: u64,
        new: &[u8],
        blocks: &mut [u8],
        marks: &mut [u8],
    ) -> DiskStepped
        ensures value { result ≡ recv_write_journal g self id1 id2 start new.now blocks.old marks.old }
        ensures blocks_after { blocks.new ≡ recv_write_journal_blocks g self id1 id2 start new.now blocks.old marks.old }
        ensures marks_after { marks.new ≡ recv_write_journal_marks g self id1 id2 start new.now blocks.old marks.old }
    {
        if let Err(no) = self.ask(g, blocks, marks) {
            return self.refused(no);
        }
        let v = JournalInterval {
            start: start,
            len: new.len() as u64 / Geometry::BLOCK_SIZE,
        };
        self.write_blocks(g, id1, id2, v, new, blocks, marks)
    }

    // A superblock read is answered, whole or damaged.
    pub fn ack_read_superblock(
        self,
        g: Geometry,
        which: u64,
        id: u64,
        whole: bool,
        blocks: &[u8],
        marks: &[u8],
    ) -> SuperblockAcked
        ensures { result ≡ ack_read_superblock g self which id whole blocks.now marks.now }
    {
        if let Err(no) = self.ask(g, blocks, marks) {
            return self.refused(no);
        }
        self.ack_read_superblock_asked(which, id, whole)
    }

    // A journal read is answered: whole, and its blocks lie at the front of `out`, or damaged.
    pub fn ack_read_journal(
        self,
        g: Geometry,
        id: u64,
        whole: bool,
        blocks: &[u8],
        marks: &[u8],
        out: &mut [u8],
    ) -> JournalAcked
        ensures value { result ≡ ack_read_journal g self id whole blocks.now marks.now out.old }
        ensures out_after { out.new ≡ ack_read_journal_out g self id whole blocks.now marks.now out.old }
    {
        if let Err(no) = self.ask_with_buffer(g, blocks, marks, out) {
            return self.refused(no);
        }
        self.read_blocks(id, whole, blocks, marks, out)
    }

    // A superblock write that has landed is answered.
    pub fn ack_write_superblock(
        self,
        g: Geometry,
        which: u64,
        id: u64,
        blocks: &[u8],
        marks: &[u8],
    ) -> DiskStepped
        ensures { result ≡ ack_write_superblock g self which id blocks.now marks.now }
    {
        if let Err(no) = self.ask(g, blocks, marks) {
            return self.refused(no);
        }
        self.ack_write_superblock_asked(which, id)
    }

    // A journal write is answered.
    pub fn ack_write_journal(self, g: Geometry, id: u64, blocks: &[u8], marks: &[u8]) -> DiskStepped
        ensures { result ≡ ack_write_journal g self id blocks.now marks.now }
    {
        if let Err(no) = self.ask(g, blocks, marks) {
            return self.refused(no);
        }
        self.ack_write_journal_asked(id)
    }

    // A superblock write in flight lands.
    pub fn land(self, g: Geometry, which: u64, blocks: &[u8], marks: &[u8]) -> DiskStepped
        ensures { result ≡ land g self which blocks.now marks.now }
    {
        if let Err(no) = self.ask(g, blocks, marks) {
            return self.refused(no);
        }
        self.land_asked(which)
    }
}
