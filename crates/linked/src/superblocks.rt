// What a store asks of a superblock that was read, and which of two is selected.
ghost use Rattle.std.specs.Prelude.{◌≡◌};
ghost use Rattle.refusal.specs.Refusal.{asked};
ghost use Rattle.linked.specs.Superblocks.{ask_superblock, counted_by, select_of};

use layout::{Geometry, Location};
use refusal::{Refusal, number_of};
use sector::{NUMBER_COUNT, superblock_of};
use superblock::{Superblock, select_superblock_index};

fn ask_superblock(g: Geometry, numbers: &[u64]) -> Result<(), Refusal>
    ensures { result ≡ asked (ask_superblock g.blocks g.table numbers.now) }
{
    g.ask()?;
    if numbers.len() != NUMBER_COUNT {
        return Err(Refusal::Sizes);
    }
    let s = superblock_of(numbers);
    if !s.well_formed(g) {
        return Err(Refusal::State);
    }
    Ok(())
}

// Questions 1 and 2 of a superblock's five numbers, in the order of `wokujani_read_sector`: 1 where N or T is out of bounds or there are not
// five, 2 where no store may have such a superblock.
#[unsafe(no_mangle)]
pub extern "C" fn wokujani_ask_superblock(n: u64, t: u64, numbers: &[u64]) -> u8
    ensures { result ≡ ask_superblock n t numbers.now }
{
    let g = Geometry {
        blocks: n,
        table: t,
    };
    number_of(&ask_superblock(g, numbers))
}

fn counted_by(counter: u64) -> Superblock
    ensures { result ≡ counted_by counter }
{
    let loc = Location { addr: 0, len: 0 };
    Superblock {
        counter,
        journalStart: 0,
        journalLen: 0,
        indirectionTableLoc: loc,
    }
}

// The slot that is selected, by the two superblocks' counters: 0 the first, 1 the second. It refuses nothing.
#[unsafe(no_mangle)]
pub extern "C" fn wokujani_select(counter1: u64, counter2: u64) -> u64
    ensures { result ≡ select_of counter1 counter2 }
{
    let a = counted_by(counter1);
    let b = counted_by(counter2);
    select_superblock_index(a, b)
}
