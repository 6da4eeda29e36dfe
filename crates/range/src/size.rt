// How large a range is.
ghost use Rattle.std.specs.Prelude.{◌≡◌};
ghost use Rattle.range.specs.Form.{length_width, used, blocks_for};

use super::HEAD_SIZE;
use layout::Geometry;

// The blocks of the range of so many entries with so many bytes of bodies. Whole blocks and what is left over are counted apart, so that
// no sum passes 64 bits.
pub fn blocks_of(entries: u64, bytes: u64) -> u64
    ensures { result ≡ blocks_for (used length_width entries bytes) }
{
    let left = HEAD_SIZE as u64 + entries % Geometry::BLOCK_SIZE + bytes % Geometry::BLOCK_SIZE;
    entries / Geometry::BLOCK_SIZE
        + bytes / Geometry::BLOCK_SIZE
        + (left + (Geometry::BLOCK_SIZE - 1)) / Geometry::BLOCK_SIZE
}
