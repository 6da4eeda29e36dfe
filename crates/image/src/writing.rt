// The other way: what a disk's two slots hold, and its blocks, as an image.
ghost use Rattle.std.specs.Prelude.{◌≡◌, length};
ghost use Rattle.refusal.specs.Refusal.{asked};
ghost use Rattle.laws.specs.Choice.{unless};
ghost use Rattle.laws.specs.Splice.{clipped};
ghost use Rattle.image.specs.Image.{ask_image, image_of, slot_bytes};

use super::reading::ask_image;
use layout::Geometry;
use refusal::Refusal;
use runs::write;
use sector::{SECTOR_SIZE, write_sector};
use superblock::Superblock;

// A slot's sector from byte `at` on, cut where the image ends: zeros where it holds nothing.
fn put_slot(held: Option<Superblock>, disk: &mut [u8], at: usize)
    ensures { disk.new ≡ clipped disk.old at (slot_bytes held) }
{
    let mut sector = [0; 4096];
    match held {
        Some(s) => {
            let written = write_sector(s, &mut sector);
            write(&sector, disk, at);
        },
        None => {
            write(&sector, disk, at);
        },
    }
}

// The image of a disk whose slots hold these and whose journal is these blocks. Question 1 where a length isn't right; the image is then as it was.
pub fn write_image(
    g: Geometry,
    first: Option<Superblock>,
    second: Option<Superblock>,
    blocks: &[u8],
    disk: &mut [u8],
) -> Result<(), Refusal>
    ensures value { result ≡ asked (ask_image g (length disk.old) (length blocks.now) (length blocks.now) (length blocks.now)) }
    ensures disk_after { disk.new ≡ unless (ask_image g (length disk.old) (length blocks.now) (length blocks.now) (length blocks.now)) disk.old (image_of first second blocks.now) }
{
    let n = blocks.len();
    ask_image(g, disk.len(), n, n, n)?;
    put_slot(first, disk, 0);
    put_slot(second, disk, SECTOR_SIZE);
    write(blocks, disk, Geometry::JOURNAL_START_ADDR as usize);
    Ok(())
}
