// The reader: the questions, and then the superblock.
ghost use Rattle.std.specs.Prelude.{◌≡◌, slice_index};
ghost use Rattle.refusal.specs.Refusal.{asked};
ghost use Rattle.sector.specs.Answer.{read_sector};
ghost use Rattle.sector.specs.Sector.{ask_sector, superblock_of};

use super::fields::ask_fields;
use super::{CONTENTS, NUMBER_COUNT, SECTOR_SIZE};
use layout::Location;
use refusal::Refusal;
use superblock::Superblock;

fn number_or_zero(numbers: &[u64], i: usize) -> u64
    ensures { result ≡ slice_index numbers.now i }
{
    numbers.get(i).copied().unwrap_or(0)
}

// The superblock that numbers make, in a sector's order; one that isn't there counts as 0.
pub fn superblock_of(numbers: &[u64]) -> Superblock
    ensures { result ≡ superblock_of numbers.now }
{
    let counter = number_or_zero(numbers, 0);
    let start = number_or_zero(numbers, 1);
    let len = number_or_zero(numbers, 2);
    let loc = Location {
        addr: number_or_zero(numbers, 3),
        len: number_or_zero(numbers, 4),
    };
    Superblock {
        counter: counter,
        journalStart: start,
        journalLen: len,
        indirectionTableLoc: loc,
    }
}

// The length is asked first: what follows then lies at places that the compiler knows.
pub fn read_sector(sector: &[u8]) -> Result<Superblock, Refusal>
    ensures { result ≡ read_sector sector.now }
{
    if sector.len() != SECTOR_SIZE {
        return Err(Refusal::Contents);
    }
    let mut numbers = [0; NUMBER_COUNT];
    ask_fields(&CONTENTS, &mut numbers, sector)?;
    let s = superblock_of(&numbers);
    Ok(s)
}

// The questions alone.
pub fn ask_sector(sector: &[u8]) -> Result<(), Refusal>
    ensures { result ≡ asked (ask_sector sector.now) }
{
    read_sector(sector)?;
    Ok(())
}
