// Advance and Replay, after questions 1 and 2; neither is a step by itself.
#![tactic(auto, using(refusal::specs::Refusal::questions, laws::specs::Choice::tests), unfolding(laws::specs::Choice::and_then, laws::specs::Choice::ask, laws::specs::Choice::unless, crate::specs::Machine::answered, crate::specs::Working::ask_advance_step, crate::specs::Working::advance_machine, crate::specs::Working::ask_replay_given, crate::specs::Working::ask_replay_step, crate::specs::Working::replay_machine, ready::specs::EntrySteps::advance))]

ghost use Rattle.std.specs.Prelude.{◌≡◌};
ghost use Rattle.refusal.specs.Refusal.{ok_unless};
ghost use Rattle.laws.specs.Choice.{unless};
ghost use Rattle.superblock.specs.declared.DiskOp.TheVariants.{NoDiskOp};
ghost use Rattle.memory.specs.Given.{memory, count_of};
ghost use Rattle.ready.specs.State.{count};
ghost use Rattle.machine.specs.Machine.{answered};
ghost use Rattle.machine.specs.Working.{given_of, added, appended_bytes, appended_lens, ask_advance_step, advance_machine, ask_replay_given, ask_replay_step, taken_then, replay_machine};

use super::{Kind, Machine, MachineStepped};
use memory::{Count, append_entries, count_added, count_given, is_next};
use ready::{Bodies, Entries};
use refusal::Refusal;

// What an add brings, and what pending memory holds with it.
#[derive(Clone, Copy)]
struct Added {
    new: Count,
    all: Count,
}

// Questions 4 and 6 of the first k entries of what a caller brings: are they the next of the replay? And what is taken then.
fn replay_given(
    e: Entries,
    rbytes: &[u8],
    rlens: &[u16],
    brought: &[u8],
    sizes: &[u16],
    k: u64,
) -> Result<Count, Refusal>
    ensures { result ≡ ok_unless (ask_replay_given e rbytes.now rlens.now brought.now sizes.now k) (taken_then e (count_of (memory brought.now sizes.now k))) }
{
    let new = count_given(brought, sizes, k)?;
    let left = e.replay_left();
    let taken = e.taken;
    let next = is_next(rbytes, rlens, left, taken, brought, sizes, new);
    if !next {
        return Err(Refusal::Condition);
    }
    let entries = taken.entries + new.entries;
    let bytes = taken.bytes + new.bytes;
    Ok(Count { entries, bytes })
}

impl Machine {
    // Questions 3, 4, 13, 6 and 8 of an add.
    fn added(self, bodies: Bodies, brought: &[u8], sizes: &[u16], k: u64) -> Result<Added, Refusal>
        ensures { result ≡ ok_unless (ask_advance_step self bodies (given_of brought.now sizes.now k)) (added self bodies (count_of (memory brought.now sizes.now k))) }
    {
        self.ask_kind(Kind::Ready)?;
        let new = count_added(brought, sizes, k)?;
        let all = self.ready.advance(self.limits(), bodies.pending, new)?;
        Ok(Added { new, all })
    }

    // What pending memory holds.
    fn pending(self, bodies: Bodies) -> Count
        ensures { result ≡ count self.ready.entries.pending bodies.pending }
    {
        Count {
            entries: self.ready.entries.pending,
            bytes: bodies.pending,
        }
    }

    // Advance: the first k entries of what the caller brings come behind the pending ones, whose bytes were found.
    pub fn advance_asked(
        self,
        bodies: Bodies,
        brought: &[u8],
        sizes: &[u16],
        k: u64,
        bytes: &mut [u8],
        lens: &mut [u16],
    ) -> MachineStepped
        ensures value { result ≡ answered (ask_advance_step self bodies (given_of brought.now sizes.now k)) NoDiskOp (advance_machine self bodies (given_of brought.now sizes.now k)) self }
        ensures bytes_after { bytes.new ≡ unless (ask_advance_step self bodies (given_of brought.now sizes.now k)) bytes.old (appended_bytes bodies (count_of (memory brought.now sizes.now k)) brought.now bytes.old) }
        ensures lens_after { lens.new ≡ unless (ask_advance_step self bodies (given_of brought.now sizes.now k)) lens.old (appended_lens self (count_of (memory brought.now sizes.now k)) sizes.now lens.old) }
    {
        match self.added(bodies, brought, sizes, k) {
            Ok(Added { new, all }) => {
                let held = self.pending(bodies);
                append_entries(bytes, lens, held, brought, sizes, new);
                self.worked(self.ready.advance_next(all.entries))
            },
            Err(no) => self.refused(no),
        }
    }

    // Questions 3, 4 and 6 of a replay, and what is taken then.
    fn replay_count(
        self,
        rbytes: &[u8],
        rlens: &[u16],
        brought: &[u8],
        sizes: &[u16],
        k: u64,
    ) -> Result<Count, Refusal>
        ensures { result ≡ ok_unless (ask_replay_step self rbytes.now rlens.now brought.now sizes.now k) (taken_then self.ready.entries (count_of (memory brought.now sizes.now k))) }
    {
        self.ask_kind(Kind::Ready)?;
        replay_given(self.ready.entries, rbytes, rlens, brought, sizes, k)
    }

    // Replay.
    pub fn replay_asked(
        self,
        rbytes: &[u8],
        rlens: &[u16],
        brought: &[u8],
        sizes: &[u16],
        k: u64,
    ) -> MachineStepped
        ensures { result ≡ answered (ask_replay_step self rbytes.now rlens.now brought.now sizes.now k) NoDiskOp (replay_machine self (count_of (memory brought.now sizes.now k))) self }
    {
        match self.replay_count(rbytes, rlens, brought, sizes, k) {
            Ok(taken) => self.worked(self.ready.replay_next(taken)),
            Err(no) => self.refused(no),
        }
    }
}
