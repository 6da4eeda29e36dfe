// A machine at work, made of 16 numbers that a caller keeps.
ghost use Rattle.std.specs.Prelude.{◌≡◌, length, eqb};
ghost use Rattle.laws.specs.Choice.{ask};
ghost use Rattle.refusal.specs.Refusal.{asked};
ghost use Rattle.linked.specs.State.{geometry_at, superblock_at, frozen_at, entries_at, ready_of, machine_of};

use layout::{Geometry, Location};
use machine::Machine;
use memory::Count;
use ready::{Commit, Entries, Frozen, Ready};
use refusal::Refusal;
use superblock::Superblock;
use tables::IdTable;

const NUMBERS: usize = 16;

// Question 1 of the numbers.
pub(crate) fn ask_numbers(len: usize) -> Result<(), Refusal>
    ensures { result ≡ asked (ask 1 (eqb len 16)) }
{
    if len != NUMBERS {
        return Err(Refusal::Sizes);
    }
    Ok(())
}

pub(crate) fn geometry_at(m: &[u64]) -> Geometry
    requires { length m.now ≡ 16 }
    ensures { result ≡ geometry_at m.now }
{
    Geometry {
        blocks: m[0],
        table: m[1],
    }
}

fn superblock_at(m: &[u64]) -> Superblock
    requires { length m.now ≡ 16 }
    ensures { result ≡ superblock_at m.now }
{
    let loc = Location {
        addr: m[5],
        len: m[6],
    };
    Superblock {
        counter: m[2],
        journalStart: m[3],
        journalLen: m[4],
        indirectionTableLoc: loc,
    }
}

fn frozen_at(m: &[u64]) -> Frozen
    requires { length m.now ≡ 16 }
    ensures { result ≡ frozen_at m.now }
{
    Frozen {
        isFrozen: m[9] == 1,
        frozenJournalPosition: m[10],
        frozenLoc: None,
    }
}

fn entries_at(m: &[u64]) -> Entries
    requires { length m.now ≡ 16 }
    ensures { result ≡ entries_at m.now }
{
    let taken = Count {
        entries: m[14],
        bytes: m[15],
    };
    Entries {
        pending: m[11],
        frozen: m[12],
        replay: m[13],
        taken,
    }
}

fn ready_of(m: &[u64]) -> Ready
    requires { length m.now ≡ 16 }
    ensures { result ≡ ready_of m.now }
{
    let superblock = superblock_at(m);
    let frozen = frozen_at(m);
    let entries = entries_at(m);
    let writes = IdTable::empty();
    Ready {
        superblock,
        whichSuperblock: m[7],
        writtenJournalLen: m[8],
        frozen,
        commit: Commit::CommitNone,
        entries,
        writes,
    }
}

pub(crate) fn machine_of(m: &[u64]) -> Machine
    requires { length m.now ≡ 16 }
    ensures { result ≡ machine_of m.now }
{
    let ready = ready_of(m);
    let first = Machine::initial();
    first.to_ready(ready)
}
