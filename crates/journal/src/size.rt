// Numbers of blocks and of bytes.
ghost use Rattle.std.specs.Prelude.{◌≡◌, ◌*◌, min};

use layout::Geometry;

// The bytes of so many blocks, or `most` where that is less: for any number of blocks, since no product is made that could wrap.
pub fn bytes_of(blocks: u64, most: usize) -> usize
    ensures { result ≡ min (blocks * 4096) most }
{
    if most as u64 / Geometry::BLOCK_SIZE < blocks {
        return most;
    }
    (blocks * Geometry::BLOCK_SIZE) as usize
}
