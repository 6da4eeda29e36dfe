// Question 2's test of the record: 000's InvReady, clause by clause in its order, and what the record adds. The clauses that tie a commit's
// id, status and new superblock to one another are met by the type.
ghost use Rattle.std.specs.Prelude.{◌≡◌};
ghost use Rattle.ready.specs.Inv.{extent_ok, advance_log_ok, advance_location_ok, new_location_ok, new_ok, commit_ok, inv_ok, ready_ok};

use super::freezing::is_location;
use super::ring::is_pos_add;
use super::sums::fits;
use super::{Commit, Frozen, Ready};
use layout::Geometry;
use superblock::{Superblock, increment_superblock_counter};

// whichSuperblock, writtenJournalLen and the superblock's journalLen.
fn extent_ok(g: Geometry, which: u64, written: u64, len: u64) -> bool
    ensures { result ≡ extent_ok g which written len }
{
    which <= 1 && written <= g.blocks && len <= written
}

// A log commit's new superblock.
fn advance_log_ok(written: u64, s: Superblock, new: Superblock) -> bool
    ensures { result ≡ advance_log_ok written s new }
{
    new.indirectionTableLoc.same(s.indirectionTableLoc)
        && new.journalStart == s.journalStart
        && new.journalLen == written
}

// A location commit's.
fn advance_location_ok(g: Geometry, written: u64, f: Frozen, s: Superblock, new: Superblock) -> bool
    ensures { result ≡ advance_location_ok g written f s new }
{
    let position = f.frozenJournalPosition;
    f.isFrozen
        && f.frozenLoc.is_some()
        && is_pos_add(g, s.journalStart, position, new.journalStart)
        && new.journalLen == written.saturating_sub(position)
        && fits(position, new.journalLen, written)
}

// Its table's location: the superblock's, or the received one.
fn new_location_ok(f: Frozen, s: Superblock, new: Superblock) -> bool
    ensures { result ≡ new_location_ok f s new }
{
    let loc = new.indirectionTableLoc;
    loc.same(s.indirectionTableLoc) || is_location(f.frozenLoc, loc)
}

impl Ready {
    // The new superblock of either commit.
    fn new_ok(self, g: Geometry, new: Superblock) -> bool
        ensures { result ≡ new_ok g self new }
    {
        self.none_outstanding()
            && new_location_ok(self.frozen, self.superblock, new)
            && new.well_formed(g)
            && new.counter == increment_superblock_counter(self.superblock.counter)
            && self.none_frozen()
    }

    fn commit_ok(self, g: Geometry) -> bool
        ensures { result ≡ commit_ok g self }
    {
        let written = self.writtenJournalLen;
        let s = self.superblock;
        match self.commit {
            Commit::CommitNone => true,
            Commit::CommitAdvanceLog { new, .. } => {
                advance_log_ok(written, s, new) && self.new_ok(g, new)
            },
            Commit::CommitAdvanceLocation { new, .. } => {
                advance_location_ok(g, written, self.frozen, s, new) && self.new_ok(g, new)
            },
        }
    }

    fn inv_ok(self, g: Geometry) -> bool
        ensures { result ≡ inv_ok g self }
    {
        let written = self.writtenJournalLen;
        let f = self.frozen;
        let s = self.superblock;
        extent_ok(g, self.whichSuperblock, written, s.journalLen)
            && f.position_ok(g, written, s.journalLen)
            && f.received_ok(g)
            && s.well_formed(g)
            && self.commit_ok(g)
            && self
                .entries
                .some_frozen_ok(written, f.frozenJournalPosition, f.isFrozen)
    }

    // Question 2.
    pub fn ok(self, g: Geometry) -> bool
        ensures { result ≡ ready_ok g self }
    {
        self.inv_ok(g) && self.entries.ok() && self.writes.ok(Ready::MOST_WRITES)
    }
}
