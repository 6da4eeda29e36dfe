// Lengths from a place on, cut where the memory ends: as single bytes, or made of single bytes.
ghost use Rattle.std.specs.Prelude.{◌≡◌};
ghost use Rattle.laws.specs.Splice.{clipped};
ghost use Rattle.runs.specs.Low.{low_bytes};

// Lengths as bytes: the low byte of each, which is the length itself where it is at most 255.
pub fn narrow(src: &[u16], dst: &mut [u8], at: usize)
    ensures { dst.new ≡ clipped dst.old at (low_bytes src.now) }
{
    let left = dst.len().saturating_sub(at);
    for j in 0..left.min(src.len()) {
        dst[at + j] = (src[j] % 256) as u8;
    }
}

// Bytes as lengths.
pub fn widen(src: &[u8], dst: &mut [u16], at: usize)
    ensures { dst.new ≡ clipped dst.old at src.now }
{
    let left = dst.len().saturating_sub(at);
    for j in 0..left.min(src.len()) {
        dst[at + j] = u16::from(src[j]);
    }
}
