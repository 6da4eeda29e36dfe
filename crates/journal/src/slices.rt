// Blocks and marks copied out: an interval's in order to the front of a buffer, and a run of blocks to a place in a longer one.
ghost use Rattle.std.specs.Prelude.{◌≡◌};
ghost use Rattle.refusal.specs.Refusal.{asked, ok_unless};
ghost use Rattle.laws.specs.Choice.{unless};
ghost use Rattle.laws.specs.Splice.{splice, clipped};
ghost use Rattle.laws.specs.Around.{around};
ghost use Rattle.journal.specs.Memory.{slice_bytes, slice_marks, copy_blocks, ask_slice_bytes, ask_slice_marks};

use super::questions::{ask_blocks, ask_marks};
use super::size::bytes_of;
use interval::JournalInterval;
use layout::Geometry;
use refusal::Refusal;

// `count` blocks of a memory, from its block `from` on, to another from its block `at` on: cut where either memory ends. It asks nothing.
pub fn copy_blocks(src: &[u8], from: u64, count: u64, dst: &mut [u8], at: u64)
    ensures { dst.new ≡ copy_blocks src.now from count dst.old at }
{
    let start = bytes_of(from, src.len());
    let size = bytes_of(count, src.len() - start);
    let place = bytes_of(at, dst.len());
    runs::copy(src, start, size, dst, place);
}

// The n elements from `at` on, going round, to the front of `out`: in two parts, the second behind the first.
fn copy_around(src: &[u8], at: usize, n: usize, out: &mut [u8])
    ensures { out.new ≡ clipped out.old 0 (around src.now at n) }
{
    let place = at.min(src.len());
    let first = n.min(src.len() - place);
    let rest = (n - first).min(place);
    runs::write(&src[place..place + first], out, 0);
    runs::write(&src[0..rest], out, first);
}

fn ask_slice_bytes(
    g: Geometry,
    v: JournalInterval,
    blocks: &[u8],
    out: &[u8],
) -> Result<(), Refusal>
    ensures { result ≡ asked (ask_slice_bytes g v blocks.now out.now) }
{
    ask_blocks(g, blocks)?;
    ask_blocks(g, out)?;
    v.ask(g)
}

fn ask_slice_marks(g: Geometry, v: JournalInterval, marks: &[u8], out: &[u8]) -> Result<(), Refusal>
    ensures { result ≡ asked (ask_slice_marks g v marks.now out.now) }
{
    ask_marks(g, marks)?;
    if out.len() as u64 == g.blocks {
        return v.ask(g);
    }
    Err(Refusal::Sizes)
}

// The bytes of an interval's blocks, copied in order to the front of `out`, which has room for N blocks.
pub fn cyclic_slice_bytes(
    g: Geometry,
    v: JournalInterval,
    blocks: &[u8],
    out: &mut [u8],
) -> Result<u64, Refusal>
    ensures value { result ≡ ok_unless (ask_slice_bytes g v blocks.now out.old) v.len }
    ensures out_after { out.new ≡ unless (ask_slice_bytes g v blocks.now out.old) out.old (splice out.old 0 (slice_bytes blocks.now v)) }
{
    ask_slice_bytes(g, v, blocks, out)?;
    let at = (v.start * Geometry::BLOCK_SIZE) as usize;
    let n = (v.len * Geometry::BLOCK_SIZE) as usize;
    copy_around(blocks, at, n, out);
    Ok(v.len)
}

// The marks of an interval's blocks, copied in order to the front of `out`, which has room for N marks.
pub fn cyclic_slice_marks(
    g: Geometry,
    v: JournalInterval,
    marks: &[u8],
    out: &mut [u8],
) -> Result<u64, Refusal>
    ensures value { result ≡ ok_unless (ask_slice_marks g v marks.now out.old) v.len }
    ensures out_after { out.new ≡ unless (ask_slice_marks g v marks.now out.old) out.old (splice out.old 0 (slice_marks marks.now v)) }
{
    ask_slice_marks(g, v, marks, out)?;
    let at = v.start as usize;
    let n = v.len as usize;
    copy_around(marks, at, n, out);
    Ok(v.len)
}
