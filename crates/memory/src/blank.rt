// Entries of zeros only, looked for among those that a caller brings.
ghost use Rattle.std.specs.Prelude.{◌≡◌, ◌≤◌, length};
ghost use Rattle.laws.specs.Cut.{cut};
ghost use Rattle.laws.specs.Fold.{sum};
ghost use Rattle.range.specs.Blank.{blank, none_blank};

use runs::zeros;

// Is each byte 0? Most entries are told by their first one or their last.
fn is_blank(entry: &[u8]) -> bool
    ensures { result ≡ blank entry.now }
{
    if entry.len() == 0 {
        return true;
    }
    if entry[0] != 0 {
        return false;
    }
    if entry[entry.len() - 1] != 0 {
        return false;
    }
    zeros(entry)
}

// Has each entry a byte that isn't 0?
pub(crate) fn none_blank(bodies: &[u8], sizes: &[u16]) -> bool
    requires { sum sizes.now ≤ length bodies.now }
    ensures { result ≡ none_blank (cut sizes.now bodies.now) }
{
    let mut ok = true;
    let mut at = 0;
    for &size in sizes {
        let end = at + usize::from(size);
        ok &= !is_blank(&bodies[at..end]);
        at = end;
    }
    ok
}
