// What a crash does to lent memory: row by row of the journal writes in flight, the picture's blocks and marks in the place of the old ones.
// It asks nothing; a row is cut where the memory or the picture ends.
ghost use Rattle.std.specs.Prelude.{◌≡◌};
ghost use Rattle.crash.specs.Picture.{crashed_blocks, crashed_marks};

use tables::IntervalTable;

// The places of a table.
const SIZE: usize = 16;

// `picture` is the picture's blocks, `pictured` its marks.
pub fn crash_memory(
    writes: IntervalTable,
    picture: &[u8],
    pictured: &[u8],
    blocks: &mut [u8],
    marks: &mut [u8],
)
    ensures blocks_after { blocks.new ≡ crashed_blocks writes picture.now blocks.old }
    ensures marks_after { marks.new ≡ crashed_marks writes pictured.now marks.old }
{
    let n = writes.count.min(SIZE);
    let rows = &writes.intervals[..n];
    for v in rows {
        journal::copy_blocks(picture, v.start, v.len, blocks, v.start);
        let at = v.start as usize;
        runs::copy(pictured, at, v.len as usize, marks, at);
    }
}
