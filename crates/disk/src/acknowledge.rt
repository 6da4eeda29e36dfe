// What the disk does when it answers a request (001's AckRead and AckWrite), after questions 1 and 2. Each function decides by value and
// shared slices and asks the other questions; none is a step by itself.
ghost use Rattle.std.specs.Prelude.{◌≡◌};
ghost use Rattle.disk.specs.Disk.{answered, answered_with};
ghost use Rattle.requests.specs.Slots.{slot_at};
ghost use Rattle.requests.specs.Acknowledge.{read_from, ask_ack_read_superblock, ask_read_superblock_as, held_interval, ask_ack_read_journal, ask_ack_write_superblock, ask_ack_write_journal};
ghost use Rattle.disk.specs.Next.{ack_read_superblock_next, ack_read_journal_next, ack_write_superblock_next, ack_write_journal_next};

use super::{Disk, DiskStepped, JournalAcked, SuperblockAcked};
use requests::{
    ask_ack_read_journal, ask_ack_read_superblock, ask_ack_write_journal, ask_ack_write_superblock,
    ask_read_superblock_as, held_interval, interval_left, read_acked, read_from,
};
use superblock::Superblock;

impl Disk {
    pub fn ack_read_superblock_asked(mut self, which: u64, id: u64, whole: bool) -> SuperblockAcked
        ensures { result ≡ answered_with (ask_ack_read_superblock self.slots self.superblockReads which id whole) (read_from whole (slot_at self.slots which)) (ack_read_superblock_next self which id) self }
    {
        let slots = self.slots;
        let reads = self.superblockReads;
        if let Err(no) = ask_ack_read_superblock(slots, reads, which, id, whole) {
            return self.refused(no);
        }
        let slot = slots.at(which);
        let read = read_from(whole, slot);
        let next = read_acked(reads, which, id);
        self.superblockReads = next;
        self.done(read)
    }

    // What a read of the slot comes back with: whole, the slot's own superblock; or damaged.
    pub fn content(self, which: u64, whole: bool) -> Option<Superblock>
        ensures { result ≡ read_from whole (slot_at self.slots which) }
    {
        let slots = self.slots;
        let slot = slots.at(which);
        read_from(whole, slot)
    }

    // A superblock read's answer that comes with what was read.
    pub(crate) fn read_superblock_as(
        mut self,
        which: u64,
        id: u64,
        read: Option<Superblock>,
    ) -> DiskStepped
        ensures { result ≡ answered (ask_read_superblock_as self.slots self.superblockReads which id read) (ack_read_superblock_next self which id) self }
    {
        let slots = self.slots;
        let reads = self.superblockReads;
        if let Err(no) = ask_read_superblock_as(slots, reads, which, id, read) {
            return self.refused(no);
        }
        let next = read_acked(reads, which, id);
        self.superblockReads = next;
        self.done(())
    }

    // The interval of the read. Whoever calls copies its blocks, where the answer is whole.
    pub fn ack_read_journal_asked(mut self, id: u64, whole: bool, marks: &[u8]) -> JournalAcked
        ensures { result ≡ answered_with (ask_ack_read_journal self.journalReads id whole marks.now) (held_interval self.journalReads id) (ack_read_journal_next self id) self }
    {
        let table = self.journalReads;
        if let Err(no) = ask_ack_read_journal(table, id, whole, marks) {
            return self.refused(no);
        }
        let v = held_interval(table, id);
        let next = interval_left(table, id);
        self.journalReads = next;
        self.done(v)
    }

    // A journal read's answer, but for question 6, which is asked of the marks.
    pub(crate) fn read_journal_answered(mut self, id: u64) -> DiskStepped
        ensures { result ≡ answered (ask_ack_write_journal self.journalReads id) (ack_read_journal_next self id) self }
    {
        let table = self.journalReads;
        if let Err(no) = ask_ack_write_journal(table, id) {
            return self.refused(no);
        }
        let next = interval_left(table, id);
        self.journalReads = next;
        self.done(())
    }

    pub fn ack_write_superblock_asked(mut self, which: u64, id: u64) -> DiskStepped
        ensures { result ≡ answered (ask_ack_write_superblock self.slots self.superblockWrites which id) (ack_write_superblock_next self which) self }
    {
        let slots = self.slots;
        let writes = self.superblockWrites;
        if let Err(no) = ask_ack_write_superblock(slots, writes, which, id) {
            return self.refused(no);
        }
        let next = writes.put(which, None);
        self.superblockWrites = next;
        self.done(())
    }

    #[inline(always)]
    pub fn ack_write_journal_asked(mut self, id: u64) -> DiskStepped
        ensures { result ≡ answered (ask_ack_write_journal self.journalWrites id) (ack_write_journal_next self id) self }
    {
        let table = self.journalWrites;
        if let Err(no) = ask_ack_write_journal(table, id) {
            return self.refused(no);
        }
        let next = interval_left(table, id);
        self.journalWrites = next;
        self.done(())
    }
}
