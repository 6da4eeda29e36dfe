// Superblocks: the next counter, the newer of two, which are well formed, and the pieces in which the journal is read.
ghost use Rattle.std.specs.Prelude.{◌≡◌};
ghost use Rattle.refusal.specs.Refusal.{ok_unless};
ghost use Rattle.laws.specs.Optional.{optional};
ghost use Rattle.layout.specs.Geometry.{ask_geometry};
ghost use Rattle.interval.specs.Interval.{ask_interval, interval};
ghost use Rattle.superblock.specs.Superblock.{increment_superblock_counter, increments1, select_superblock_index, select_superblock, journal_front_interval_of_superblock, journal_back_interval_of_superblock, wf_superblock, same_superblock};

use super::Superblock;
use interval::JournalInterval;
use layout::Geometry;
use refusal::Refusal;

// The counter after `counter`: after the largest comes 0.
pub fn increment_superblock_counter(counter: u64) -> u64
    ensures { result ≡ increment_superblock_counter counter }
{
    std::num::wrapping_add_u64(counter, 1)
}

// Does `next` follow `counter`?
pub fn increments1(counter: u64, next: u64) -> bool
    ensures { result ≡ increments1 counter next }
{
    let after = increment_superblock_counter(counter);
    next == after
}

// The slot that is selected of two: 1, the second, exactly where its counter follows the first's; else 0, the first.
pub fn select_superblock_index(superblock1: Superblock, superblock2: Superblock) -> u64
    ensures { result ≡ select_superblock_index superblock1 superblock2 }
{
    let newer = increments1(superblock1.counter, superblock2.counter);
    if newer {
        return 1;
    }
    0
}

pub fn select_superblock(superblock1: Superblock, superblock2: Superblock) -> Superblock
    ensures { result ≡ select_superblock superblock1 superblock2 }
{
    let which = select_superblock_index(superblock1, superblock2);
    if which == 1 {
        return superblock2;
    }
    superblock1
}

impl Superblock {
    pub fn same(self, other: Superblock) -> bool
        ensures { result ≡ same_superblock self other }
    {
        self == other
    }

    // The two pieces in which loading reads the journal.
    pub fn front(self, g: Geometry) -> Option<JournalInterval>
        ensures { result ≡ optional (journal_front_interval_of_superblock g self) }
    {
        let v = JournalInterval {
            start: self.journalStart,
            len: self.journalLen,
        };
        v.front(g)
    }

    pub fn back(self, g: Geometry) -> Option<JournalInterval>
        ensures { result ≡ optional (journal_back_interval_of_superblock g self) }
    {
        let v = JournalInterval {
            start: self.journalStart,
            len: self.journalLen,
        };
        v.back(g)
    }

    // The same, after questions 1 and 4.
    pub fn journal_front_interval(self, g: Geometry) -> Result<Option<JournalInterval>, Refusal>
        ensures { result ≡ ok_unless (ask_interval g (interval self.journalStart self.journalLen)) (optional (journal_front_interval_of_superblock g self)) }
    {
        let v = JournalInterval {
            start: self.journalStart,
            len: self.journalLen,
        };
        v.journal_front_interval(g)
    }

    pub fn journal_back_interval(self, g: Geometry) -> Result<Option<JournalInterval>, Refusal>
        ensures { result ≡ ok_unless (ask_interval g (interval self.journalStart self.journalLen)) (optional (journal_back_interval_of_superblock g self)) }
    {
        let v = JournalInterval {
            start: self.journalStart,
            len: self.journalLen,
        };
        v.journal_back_interval(g)
    }

    // A start below N, a len of at most N and a valid table location?
    pub fn well_formed(self, g: Geometry) -> bool
        ensures { result ≡ wf_superblock g self }
    {
        if self.journalStart < g.blocks {
            if self.journalLen <= g.blocks {
                let loc = self.indirectionTableLoc;
                return loc.valid_table(g);
            }
            return false;
        }
        false
    }

    // `well_formed`, after question 1.
    pub fn wf_superblock(self, g: Geometry) -> Result<bool, Refusal>
        ensures { result ≡ ok_unless (ask_geometry g) (wf_superblock g self) }
    {
        g.ask()?;
        let b = self.well_formed(g);
        Ok(b)
    }
}
