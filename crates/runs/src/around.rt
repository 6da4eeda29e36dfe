// A run written round the end of a memory that is a ring: from a place on to the end, and the rest from the front on. Of a run that is
// longer than the memory the first elements are written, as many as it holds; a place past the end is the front.
ghost use Rattle.std.specs.Prelude.{◌≡◌, length, replicate, take};
ghost use Rattle.laws.specs.Around.{splice_around};
ghost use Rattle.runs.specs.Low.{low_bytes};

use super::lengths::narrow;
use super::run::{fill, write};

pub fn write_around<T: Copy>(src: &[T], dst: &mut [T], at: usize)
    ensures { dst.new ≡ splice_around dst.old at (take (length dst.old) src.now) }
{
    let first = src.len().min(dst.len().saturating_sub(at));
    let end = src.len().min(dst.len());
    write(src, dst, at);
    write(&src[first..end], dst, 0);
}

pub fn narrow_around(src: &[u16], dst: &mut [u8], at: usize)
    ensures { dst.new ≡ splice_around dst.old at (take (length dst.old) (low_bytes src.now)) }
{
    let first = src.len().min(dst.len().saturating_sub(at));
    let end = src.len().min(dst.len());
    narrow(src, dst, at);
    narrow(&src[first..end], dst, 0);
}

pub fn fill_around(value: u8, count: usize, dst: &mut [u8], at: usize)
    ensures { dst.new ≡ splice_around dst.old at (take (length dst.old) (replicate count value)) }
{
    let first = count.min(dst.len().saturating_sub(at));
    let end = count.min(dst.len());
    fill(value, count, dst, at);
    fill(value, end - first, dst, 0);
}
