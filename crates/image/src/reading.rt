// The sectors of an image, and question 1.
ghost use Rattle.std.specs.Prelude.{◌≡◌};
ghost use Rattle.refusal.specs.Refusal.{asked};
ghost use Rattle.image.specs.Image.{slot_read, ask_image};

use layout::Geometry;
use refusal::Refusal;
use sector::{SECTOR_SIZE, read_sector};
use superblock::Superblock;

// The superblock of the sector that begins at byte `at`, cut where the image ends.
pub fn read_slot(disk: &[u8], at: usize) -> Result<Superblock, Refusal>
    ensures { result ≡ slot_read disk.now at }
{
    let place = at.min(disk.len());
    let size = SECTOR_SIZE.min(disk.len() - place);
    read_sector(&disk[place..place + size])
}

// Question 1, by lengths: an image has the two sectors and N blocks, pieces have N blocks, replay memory has as many bytes and lengths.
pub fn ask_image(
    g: Geometry,
    disk: usize,
    pieces: usize,
    rbytes: usize,
    rlens: usize,
) -> Result<(), Refusal>
    ensures { result ≡ asked (ask_image g disk pieces rbytes rlens) }
{
    g.ask()?;
    let size = g.blocks * Geometry::BLOCK_SIZE;
    if disk as u64 != Geometry::JOURNAL_START_ADDR + size {
        return Err(Refusal::Sizes);
    }
    if pieces as u64 != size {
        return Err(Refusal::Sizes);
    }
    if rbytes as u64 != size {
        return Err(Refusal::Sizes);
    }
    if rlens as u64 != size {
        return Err(Refusal::Sizes);
    }
    Ok(())
}
