// Question 2 of a system, beside that of its machine and of its disk.
ghost use Rattle.std.specs.Prelude.{◌≡◌};
ghost use Rattle.joined.specs.Joined.{joined_ok};

use super::apart::{slots_wf, writes_apart, writes_clear};
use super::awaits::awaited_by;
use super::held::{same_journal_reads, same_reads, same_writes};
use disk::Disk;
use layout::Geometry;
use machine::Machine;
use tables::same_ids;

// Both slots well formed; the machine awaits exactly the ids that the disk holds, with the same slot, interval or new superblock; journal
// writes in flight overlap neither each other nor the selected interval.
pub fn joined(g: Geometry, m: Machine, d: Disk) -> bool
    ensures { result ≡ joined_ok g m d }
{
    let a = awaited_by(g, m);
    let slots = slots_wf(g, d.slots);
    let superblock_reads = same_reads(a.superblockReads, d.superblockReads);
    let journal_reads = same_journal_reads(a.journalReads, d.journalReads);
    let superblock_writes = same_writes(a.superblockWrites, d.superblockWrites);
    let journal_writes = same_ids(a.journalWrites, d.journalWrites);
    let apart = writes_apart(d.journalWrites);
    let clear = writes_clear(g, d.slots, d.journalWrites);
    slots
        & (superblock_reads
            & (journal_reads & (superblock_writes & (journal_writes & (apart & clear)))))
}
