// What the disk does with a request that it receives (001's RecvRead and RecvWrite), after questions 1 and 2. Each function decides by value
// and asks the other questions; none is a step by itself.
ghost use Rattle.std.specs.Prelude.{◌≡◌};
ghost use Rattle.disk.specs.Disk.{answered};
ghost use Rattle.requests.specs.Receive.{ask_recv_read_superblock, ask_recv_read_journal, ask_recv_write_superblock, ask_recv_write_journal};
ghost use Rattle.disk.specs.Next.{recv_read_superblock_next, recv_read_journal_next, recv_write_superblock_next, recv_write_journal_next};

use super::{Disk, DiskStepped};
use interval::JournalInterval;
use layout::Geometry;
use requests::{
    SuperblockWrite, ask_recv_read_journal, ask_recv_read_superblock, ask_recv_write_journal,
    ask_recv_write_superblock, read_received, write_received,
};
use superblock::Superblock;

impl Disk {
    pub fn recv_read_superblock_asked(mut self, which: u64, id: u64) -> DiskStepped
        ensures { result ≡ answered (ask_recv_read_superblock self.superblockReads which id) (recv_read_superblock_next self which id) self }
    {
        let reads = self.superblockReads;
        if let Err(no) = ask_recv_read_superblock(reads, which, id) {
            return self.refused(no);
        }
        let next = read_received(reads, which, id);
        self.superblockReads = next;
        self.done(())
    }

    pub fn recv_read_journal_asked(
        mut self,
        g: Geometry,
        id: u64,
        v: JournalInterval,
    ) -> DiskStepped
        ensures { result ≡ answered (ask_recv_read_journal g self.journalReads id v) (recv_read_journal_next self id v) self }
    {
        let table = self.journalReads;
        if let Err(no) = ask_recv_read_journal(g, table, id, v) {
            return self.refused(no);
        }
        let next = table.add(id, v);
        self.journalReads = next;
        self.done(())
    }

    // The newer write takes the older one's place.
    pub fn recv_write_superblock_asked(
        mut self,
        which: u64,
        id: u64,
        superblock: Superblock,
    ) -> DiskStepped
        ensures { result ≡ answered (ask_recv_write_superblock self.superblockWrites which id) (recv_write_superblock_next self which id superblock) self }
    {
        let writes = self.superblockWrites;
        if let Err(no) = ask_recv_write_superblock(writes, which, id) {
            return self.refused(no);
        }
        let write = SuperblockWrite { id, superblock };
        let next = writes.put(which, Some(write));
        self.superblockWrites = next;
        self.done(())
    }

    // The rows of a write of the blocks of `v`. Whoever calls writes the blocks and sets the marks.
    pub fn recv_write_journal_asked(
        mut self,
        g: Geometry,
        id1: u64,
        id2: Option<u64>,
        v: JournalInterval,
    ) -> DiskStepped
        ensures { result ≡ answered (ask_recv_write_journal g self.journalWrites id1 id2 v) (recv_write_journal_next g self id1 id2 v) self }
    {
        let table = self.journalWrites;
        if let Err(no) = ask_recv_write_journal(g, table, id1, id2, v) {
            return self.refused(no);
        }
        let next = write_received(g, table, id1, id2, v);
        self.journalWrites = next;
        self.done(())
    }
}
