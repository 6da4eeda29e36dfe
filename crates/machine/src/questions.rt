// Questions 1 and 2: the lent memory, and the state.
#![tactic(auto, using(refusal::specs::Refusal::questions, laws::specs::Choice::tests), unfolding(laws::specs::Choice::and_then, laws::specs::Choice::ask, laws::specs::Choice::also, crate::specs::Lent::ask_lent, crate::specs::Questions::sync_ok, crate::specs::Questions::kind_ok, crate::specs::Questions::machine_ok, crate::specs::Questions::ask_entries, crate::specs::Questions::ask_held, crate::specs::Questions::ask_machine, crate::specs::Questions::bodies_of, crate::specs::Whole::ask_machine_out))]

ghost use Rattle.std.specs.Prelude.{◌≡◌};
ghost use Rattle.refusal.specs.Refusal.{asked, ok_unless};
ghost use Rattle.machine.specs.Lent.{lent_of, ask_lent};
ghost use Rattle.machine.specs.Questions.{sync_ok, kind_ok, machine_ok, ask_entries, entry_bodies, ask_held, bodies_of, ask_machine};
ghost use Rattle.machine.specs.Whole.{ask_machine_out};

use super::{Kind, Lent, Machine};
use journal::ask_blocks;
use layout::Geometry;
use memory::{Limits, ask_replay_lent, count_left, count_pending};
use ready::{Bodies, Entries};
use refusal::Refusal;
use tables::SyncTable;

// Question 1.
fn ask_lent(g: Geometry, limits: Limits, lent: Lent<'_>) -> Result<(), Refusal>
    ensures { result ≡ asked (ask_lent g limits (lent_of lent.entry)) }
{
    ask_blocks(g, lent.pieces)?;
    limits.ask_lent(lent.bytes.len(), lent.lens.len())?;
    ask_replay_lent(g.blocks, lent.rbytes.len(), lent.rlens.len())
}

fn sync_ok(t: SyncTable) -> bool
    ensures { result ≡ sync_ok t }
{
    t.ok(Machine::MOST_SYNC_REQS) && t.valid()
}

// Question 2 of entries in lent memory, and what was found there.
fn held_entries(g: Geometry, limits: Limits, e: Entries, lent: Lent<'_>) -> Result<Bodies, Refusal>
    ensures { result ≡ ok_unless (ask_entries g limits lent.entry.bytes.now lent.entry.lens.now lent.entry.rbytes.now lent.entry.rlens.now e) (entry_bodies lent.entry.lens.now e) }
{
    let p = count_pending(limits, lent.bytes, lent.lens, e.pending, e.frozen)?;
    count_left(g.blocks, lent.rbytes, lent.rlens, e.replay, e.taken)?;
    Ok(Bodies {
        frozen: p.frozen.bytes,
        pending: p.all.bytes,
    })
}

impl Machine {
    // Question 2 of the record.
    pub fn ok(self, g: Geometry) -> bool
        ensures { result ≡ machine_ok g self }
    {
        sync_ok(self.sync) && self.kind_ok(g)
    }

    fn kind_ok(self, g: Geometry) -> bool
        ensures { result ≡ kind_ok g self }
    {
        match self.kind {
            Kind::LoadingSuperblock => self.superblocks.ok(g),
            Kind::LoadingOther => self.other.ok(g),
            Kind::Ready => self.ready.ok(g),
        }
    }

    // Question 2 of what lies in lent memory: a machine that loads holds no entries.
    fn held(self, g: Geometry, lent: Lent<'_>) -> Result<Bodies, Refusal>
        ensures { result ≡ ok_unless (ask_held g lent.entry.bytes.now lent.entry.lens.now lent.entry.rbytes.now lent.entry.rlens.now self) (bodies_of lent.entry.lens.now self) }
    {
        match self.kind {
            Kind::LoadingSuperblock | Kind::LoadingOther => Ok(Bodies {
                frozen: 0,
                pending: 0,
            }),
            Kind::Ready => held_entries(g, self.limits(), self.ready.entries, lent),
        }
    }

    // Questions 1 and 2, and what was found in pending memory.
    pub fn ask(self, g: Geometry, lent: Lent<'_>) -> Result<Bodies, Refusal>
        ensures { result ≡ ok_unless (ask_machine g (lent_of lent.entry) self) (bodies_of lent.entry.lens.now self) }
    {
        ask_lent(g, self.limits(), lent)?;
        if !self.ok(g) {
            return Err(Refusal::State);
        }
        self.held(g, lent)
    }

    // The same, without what was found.
    pub fn ask_state(self, g: Geometry, lent: Lent<'_>) -> Result<(), Refusal>
        ensures { result ≡ asked (ask_machine g (lent_of lent.entry) self) }
    {
        self.ask(g, lent)?;
        Ok(())
    }

    // The same with a buffer of N blocks that a range goes to.
    pub(crate) fn ask_with_buffer(
        self,
        g: Geometry,
        out: &[u8],
        lent: Lent<'_>,
    ) -> Result<Bodies, Refusal>
        ensures { result ≡ ok_unless (ask_machine_out g (lent_of lent.entry) self out.now) (bodies_of lent.entry.lens.now self) }
    {
        ask_blocks(g, out)?;
        self.ask(g, lent)
    }
}
