// A part of memory moved to its front.
ghost use Rattle.std.specs.Prelude.{◌≡◌, take, drop};
ghost use Rattle.laws.specs.Splice.{splice};

pub fn move_front<T: Copy>(a: &mut [T], from: usize, count: usize)
    ensures { a.new ≡ splice a.old 0 (take count (drop from a.old)) }
{
    let start = from.min(a.len());
    let n = count.min(a.len() - start);
    a.copy_within(start..start + n, 0);
}
