// What the two sectors come to: the superblock that is selected, or the first no.
ghost use Rattle.std.specs.Prelude.{◌≡◌};
ghost use Rattle.refusal.specs.Refusal.{asked, number_of};
ghost use Rattle.laws.specs.Choice.{ask};
ghost use Rattle.superblock.specs.Superblock.{wf_superblock};
ghost use Rattle.image.specs.Image.{chosen, choice_of, of_slot};

use super::reading::read_slot;
use super::{Choice, Refused};
use layout::Geometry;
use refusal::Refusal;
use sector::SECTOR_SIZE;
use superblock::{Superblock, select_superblock, select_superblock_index};

// An answer with the slot of its no, 1 or 2; 0 where none is asked.
pub(crate) fn of_slot<T>(answer: Result<T, Refusal>, slot: u8) -> Result<T, Refused>
    ensures { result ≡ of_slot answer slot }
{
    match answer {
        Ok(value) => Ok(value),
        Err(no) => Err(Refused { no, slot }),
    }
}

// Question 2: is the superblock well formed?
fn ask_formed(g: Geometry, s: Superblock) -> Result<(), Refusal>
    ensures { result ≡ asked (ask 2 (wf_superblock g s)) }
{
    if s.well_formed(g) {
        return Ok(());
    }
    Err(Refusal::State)
}

// The choice, or the first no: a sector's own, question 1's, which `lent` answers, and 2 where a superblock isn't well formed.
pub(crate) fn choose(g: Geometry, disk: &[u8], lent: Result<(), Refusal>) -> Result<Choice, Refused>
    ensures { result ≡ choice_of (chosen g disk.now (number_of lent)) }
{
    let s = of_slot(read_slot(disk, 0), 1)?;
    let t = of_slot(read_slot(disk, SECTOR_SIZE), 2)?;
    of_slot(lent, 0)?;
    of_slot(ask_formed(g, s), 1)?;
    of_slot(ask_formed(g, t), 2)?;
    let which = select_superblock_index(s, t);
    let superblock = select_superblock(s, t);
    Ok(Choice { superblock, which })
}
