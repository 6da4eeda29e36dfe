// Elements from a place on, cut where the memory ends: a run of them, a part of another memory, or one value again and again.
ghost use Rattle.std.specs.Prelude.{◌≡◌, take, drop, replicate};
ghost use Rattle.laws.specs.Splice.{clipped};

pub fn write<T: Copy>(src: &[T], dst: &mut [T], at: usize)
    ensures { dst.new ≡ clipped dst.old at src.now }
{
    let place = at.min(dst.len());
    let n = (dst.len() - place).min(src.len());
    dst[place..place + n].copy_from_slice(&src[..n]);
}

// A part of another memory: its `count` elements from `from` on, or as many of them as there are.
pub fn copy<T: Copy>(src: &[T], from: usize, count: usize, dst: &mut [T], at: usize)
    ensures { dst.new ≡ clipped dst.old at (take count (drop from src.now)) }
{
    let start = from.min(src.len());
    let size = count.min(src.len() - start);
    write(&src[start..start + size], dst, at);
}

// One value `count` times.
pub fn fill(value: u8, count: usize, dst: &mut [u8], at: usize)
    ensures { dst.new ≡ clipped dst.old at (replicate count value) }
{
    let place = at.min(dst.len());
    let n = (dst.len() - place).min(count);
    dst[place..place + n].fill(value);
}
