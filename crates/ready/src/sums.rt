// A sum of any 64-bit numbers against a bound, which doesn't wrap.
ghost use Rattle.std.specs.Prelude.{◌≡◌, ◌+◌, leb};

// Is the sum of the first two at most the third?
pub(crate) fn fits(a: u64, b: u64, most: u64) -> bool
    ensures { result ≡ leb (a + b) most }
{
    if most < a {
        return false;
    }
    b <= most - a
}
