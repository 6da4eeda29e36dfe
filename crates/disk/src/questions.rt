// Questions 1 and 2: the lent memory, and the state.
ghost use Rattle.std.specs.Prelude.{◌≡◌};
ghost use Rattle.refusal.specs.Refusal.{asked};
ghost use Rattle.disk.specs.Questions.{reads_ok, intervals_ok, disk_ok, ask_state, ask_disk, ask_disk_out};

use super::Disk;
use layout::Geometry;
use refusal::Refusal;
use requests::{MOST_JOURNAL_READS, MOST_JOURNAL_WRITES, MOST_SUPERBLOCK_READS, SuperblockReads};
use tables::IntervalTable;

// Question 2 of the superblock reads: in each slot's table as many as may be, and ids that differ.
fn reads_ok(reads: SuperblockReads) -> bool
    ensures { result ≡ reads_ok reads }
{
    let first = reads.first;
    let second = reads.second;
    let a = first.ok(MOST_SUPERBLOCK_READS);
    let b = second.ok(MOST_SUPERBLOCK_READS);
    a & b
}

// Question 2 of a table of intervals: as many as may be, ids that differ, and every interval valid and contiguous. In line, so that no table is
// copied.
#[inline(always)]
fn intervals_ok(g: Geometry, most: usize, table: IntervalTable) -> bool
    ensures { result ≡ intervals_ok g most table }
{
    let a = table.ok(most);
    let b = table.valid(g);
    a & b
}

impl Disk {
    // Question 2, as a test.
    pub fn ok(self, g: Geometry) -> bool
        ensures { result ≡ disk_ok g self }
    {
        let reads = self.superblockReads;
        let journal_reads = self.journalReads;
        let journal_writes = self.journalWrites;
        let a = reads_ok(reads);
        let b = intervals_ok(g, MOST_JOURNAL_READS, journal_reads);
        let c = intervals_ok(g, MOST_JOURNAL_WRITES, journal_writes);
        a & (b & c)
    }

    // Question 2.
    pub fn ask_state(self, g: Geometry) -> Result<(), Refusal>
        ensures { result ≡ asked (ask_state g self) }
    {
        let b = self.ok(g);
        if b {
            return Ok(());
        }
        Err(Refusal::State)
    }

    // Questions 1 and 2.
    pub fn ask(self, g: Geometry, blocks: &[u8], marks: &[u8]) -> Result<(), Refusal>
        ensures { result ≡ asked (ask_disk g self blocks.now marks.now) }
    {
        journal::ask_journal(g, blocks, marks)?;
        self.ask_state(g)
    }

    // The same with a buffer of N blocks that a read's blocks are copied to.
    pub fn ask_with_buffer(
        self,
        g: Geometry,
        blocks: &[u8],
        marks: &[u8],
        out: &[u8],
    ) -> Result<(), Refusal>
        ensures { result ≡ asked (ask_disk_out g self blocks.now marks.now out.now) }
    {
        journal::ask_journal(g, blocks, marks)?;
        journal::ask_blocks(g, out)?;
        self.ask_state(g)
    }
}
