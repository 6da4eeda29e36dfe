// Journal writes: WriteBackJournalReq and WriteBackJournalResp.
ghost use Rattle.std.specs.Prelude.{◌≡◌};
ghost use Rattle.refusal.specs.Refusal.{asked};
ghost use Rattle.ready.specs.JournalSteps.{may_write, ask_room, ask_write_back_journal_req, write_back_journal_req, ask_ids, joined_ids, write_back_journal_req_next, write_back_journal_resp_next};

use super::ring::pos_add;
use super::sums::fits;
use super::{Bodies, JournalWrite, Ready};
use layout::Geometry;
use range::blocks_of;
use refusal::Refusal;
use tables::IdTable;

// Question 8 of the ids: those that are new to the set find room.
fn ask_ids(writes: IdTable, id1: u64, id2: Option<u64>) -> Result<(), Refusal>
    ensures { result ≡ asked (ask_ids writes id1 id2) }
{
    writes.ask_join(id1, Ready::MOST_WRITES)?;
    match id2 {
        None => Ok(()),
        Some(id) => writes.join(id1).ask_join(id, Ready::MOST_WRITES),
    }
}

fn joined_ids(writes: IdTable, id1: u64, id2: Option<u64>) -> IdTable
    ensures { result ≡ joined_ids writes id1 id2 }
{
    let first = writes.join(id1);
    match id2 {
        None => first,
        Some(id) => first.join(id),
    }
}

impl Ready {
    // Question 6: no commit in flight, something pending, and positions on the ring.
    fn may_write(self, g: Geometry, sent: u64) -> bool
        ensures { result ≡ may_write g self sent }
    {
        self.commit.is_none()
            && 0 < sent
            && self.superblock.journalStart < g.blocks
            && self.writtenJournalLen <= g.blocks
    }

    // Question 8: room in the journal, and for the ids.
    fn ask_room(self, g: Geometry, id1: u64, id2: Option<u64>, blocks: u64) -> Result<(), Refusal>
        ensures { result ≡ asked (ask_room g self id1 id2 blocks) }
    {
        if fits(blocks, self.writtenJournalLen, g.blocks) {
            return ask_ids(self.writes, id1, id2);
        }
        Err(Refusal::Room)
    }

    // WriteBackJournalReq: 6, then 8.
    pub fn ask_write_back_journal_req(
        self,
        g: Geometry,
        id1: u64,
        id2: Option<u64>,
        bodies: Bodies,
    ) -> Result<(), Refusal>
        ensures { result ≡ asked (ask_write_back_journal_req g self id1 id2 bodies) }
    {
        let sent = self.sent(bodies);
        if self.may_write(g, sent.entries) {
            return self.ask_room(g, id1, id2, blocks_of(sent.entries, sent.bytes));
        }
        Err(Refusal::Condition)
    }

    // The same, and where nothing is refused the range that is sent.
    pub fn write_back_journal_req(
        self,
        g: Geometry,
        id1: u64,
        id2: Option<u64>,
        bodies: Bodies,
    ) -> Result<JournalWrite, Refusal>
        ensures { result ≡ write_back_journal_req g self id1 id2 bodies }
    {
        self.ask_write_back_journal_req(g, id1, id2, bodies)?;
        let sent = self.sent(bodies);
        let blocks = blocks_of(sent.entries, sent.bytes);
        Ok(JournalWrite {
            start: pos_add(g, self.superblock.journalStart, self.writtenJournalLen),
            blocks,
            written: self.writtenJournalLen + blocks,
        })
    }

    // So many blocks are written then. The ids join as in a set. If the entries were frozen, the frozen position goes behind them.
    pub fn write_back_journal_req_next(self, id1: u64, id2: Option<u64>, written: u64) -> Ready
        ensures { result ≡ write_back_journal_req_next self id1 id2 written }
    {
        Ready {
            writtenJournalLen: written,
            frozen: self.frozen.written(self.none_frozen(), written),
            entries: self.entries.written(),
            writes: joined_ids(self.writes, id1, id2),
            ..self
        }
    }

    // WriteBackJournalResp: the id leaves; one that nobody awaits alters nothing.
    pub fn write_back_journal_resp_next(self, id: u64) -> Ready
        ensures { result ≡ write_back_journal_resp_next self id }
    {
        let place = self.writes.place(id);
        Ready {
            writes: self.writes.remove(place),
            ..self
        }
    }
}
