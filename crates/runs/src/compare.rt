// Is the front of a run what another has from a place on?
ghost use Rattle.std.specs.Prelude.{◌≡◌, take, drop};
ghost use lib.Pointwise.{pointwise};

pub fn same_at<T: PartialEq>(a: &[T], count: usize, b: &[T], at: usize) -> bool
    ensures { result ≡ pointwise T.eq (take count a.now) (take count (drop at b.now)) }
{
    let n = count.min(a.len());
    let start = at.min(b.len());
    let end = start + count.min(b.len() - start);
    a[..n] == b[start..end]
}
