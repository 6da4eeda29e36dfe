// What a journal write does to lent memory.
ghost use Rattle.std.specs.Prelude.{◌≡◌, take, drop};
ghost use Rattle.laws.specs.Splice.{splice};
ghost use Rattle.writer.specs.Ring.{put_range};

use memory::{Count, move_front};
use writer::put_range;

// The entries that are sent go as a range from block `start` on into a memory of blocks, and what is left of pending memory moves to its front.
pub fn send_range(
    bytes: &mut [u8],
    lens: &mut [u16],
    sent: Count,
    left: Count,
    blocks: &mut [u8],
    start: u64,
)
    ensures blocks_after { blocks.new ≡ put_range bytes.old lens.old sent.entries sent.bytes blocks.old start }
    ensures bytes_after { bytes.new ≡ splice bytes.old 0 (take left.bytes (drop sent.bytes bytes.old)) }
    ensures lens_after { lens.new ≡ splice lens.old 0 (take left.entries (drop sent.entries lens.old)) }
{
    put_range(bytes, lens, sent.entries, sent.bytes, blocks, start);
    move_front(bytes, lens, sent, left);
}
