// Commits: both requests (WriteBackSuperblockReq), and the answer (WriteBackSuperblockResp).
ghost use Rattle.std.specs.Prelude.{◌≡◌, ◌<◌};
ghost use Rattle.refusal.specs.Refusal.{asked};
ghost use Rattle.ready.specs.State.{awaits_id};
ghost use Rattle.ready.specs.CommitSteps.{may_commit, ask_advance_log, advanced_log, advance_log, advance_log_next, ask_advance_location, advanced_location, advance_location, advance_location_next, log_committed, location_committed, write_back_superblock_resp_next};

use super::ring::pos_add;
use super::{Commit, Frozen, Ready};
use layout::{Geometry, Location};
use refusal::Refusal;
use superblock::{Superblock, increment_superblock_counter};

impl Ready {
    // What both commits ask: none in flight, every journal write answered, no entry frozen.
    fn may_commit(self) -> bool
        ensures { result ≡ may_commit self }
    {
        self.commit.is_none() && self.none_outstanding() && self.none_frozen()
    }

    // WriteBackSuperblockReq_AdvanceLog: 6.
    pub fn ask_advance_log(self, g: Geometry) -> Result<(), Refusal>
        ensures { result ≡ asked (ask_advance_log g self) }
    {
        if self.may_commit() && self.writtenJournalLen <= g.blocks {
            return Ok(());
        }
        Err(Refusal::Condition)
    }

    // Its new superblock: all that is written.
    fn advanced_log(self) -> Superblock
        ensures { result ≡ advanced_log self }
    {
        let s = self.superblock;
        let next = increment_superblock_counter(s.counter);
        Superblock {
            counter: next,
            journalLen: self.writtenJournalLen,
            ..s
        }
    }

    pub fn advance_log(self, g: Geometry) -> Result<Superblock, Refusal>
        ensures { result ≡ advance_log g self }
    {
        self.ask_advance_log(g)?;
        Ok(self.advanced_log())
    }

    pub fn advance_log_next(self, id: u64, new: Superblock) -> Ready
        ensures { result ≡ advance_log_next self id new }
    {
        Ready {
            commit: Commit::CommitAdvanceLog { id, new },
            ..self
        }
    }

    // WriteBackSuperblockReq_AdvanceLocation: 6.
    pub fn ask_advance_location(self, g: Geometry) -> Result<(), Refusal>
        ensures { result ≡ asked (ask_advance_location g self) }
    {
        let written = self.writtenJournalLen;
        if self.frozen.frozenLoc.is_some()
            && self.may_commit()
            && self.superblock.journalStart < g.blocks
            && self.frozen.frozenJournalPosition <= written
            && written <= g.blocks
        {
            return Ok(());
        }
        Err(Refusal::Condition)
    }

    // Its new superblock: what is written after the frozen position, and the received location.
    fn advanced_location(self, g: Geometry, loc: Location) -> Superblock
        requires { self.superblock.journalStart < g.blocks }
        ensures { result ≡ advanced_location g self loc }
    {
        let s = self.superblock;
        let position = self.frozen.frozenJournalPosition;
        Superblock {
            counter: increment_superblock_counter(s.counter),
            journalStart: pos_add(g, s.journalStart, position),
            journalLen: self.writtenJournalLen.saturating_sub(position),
            indirectionTableLoc: loc,
        }
    }

    pub fn advance_location(self, g: Geometry) -> Result<Superblock, Refusal>
        ensures { result ≡ advance_location g self }
    {
        let loc = self.frozen.frozenLoc.ok_or(Refusal::Condition)?;
        self.ask_advance_location(g)?;
        Ok(self.advanced_location(g, loc))
    }

    pub fn advance_location_next(self, id: u64, new: Superblock) -> Ready
        ensures { result ≡ advance_location_next self id new }
    {
        Ready {
            commit: Commit::CommitAdvanceLocation { id, new },
            ..self
        }
    }

    // Is a commit in flight under this id?
    pub fn awaits_superblock(self, id: u64) -> bool
        ensures { result ≡ awaits_id self.commit id }
    {
        self.commit.awaits(id)
    }

    // A log commit is on disk: its superblock and slot are the machine's.
    fn log_committed(self, new: Superblock) -> Ready
        ensures { result ≡ log_committed self new }
    {
        Ready {
            superblock: new,
            whichSuperblock: self.commit_slot(),
            commit: Commit::CommitNone,
            ..self
        }
    }

    // A location commit is: what lay before the frozen position is no longer the journal's, and nothing is frozen.
    fn location_committed(self, new: Superblock) -> Ready
        ensures { result ≡ location_committed self new }
    {
        let position = self.frozen.frozenJournalPosition;
        Ready {
            writtenJournalLen: self.writtenJournalLen.saturating_sub(position),
            frozen: Frozen::not_frozen(),
            ..self.log_committed(new)
        }
    }

    // WriteBackSuperblockResp: the commit under this id is done; an answer that nobody awaits alters nothing.
    pub fn write_back_superblock_resp_next(self, id: u64) -> Ready
        ensures { result ≡ write_back_superblock_resp_next self id }
    {
        match self.commit {
            Commit::CommitAdvanceLog { id: k, new } if k == id => self.log_committed(new),
            Commit::CommitAdvanceLocation { id: k, new } if k == id => self.location_committed(new),
            _ => self,
        }
    }
}
