// Is every byte of a run zero?
ghost use Rattle.std.specs.Prelude.{◌≡◌};
ghost use Rattle.laws.specs.Fold.{every};
ghost use Rattle.laws.specs.Bytes.{is_zero};

// How many bytes are looked at without counting.
const PART: usize = 1024;

// By the greatest byte: a fold has no way out, so that the compiler can look at many at once.
fn zeros_in(s: &[u8]) -> bool
    ensures { result ≡ every is_zero s.now }
{
    let greatest = s.iter().fold(0, |most: u8, b| most.max(*b));
    greatest == 0
}

// By parts of one size: where the number of turns is known beforehand the compiler doesn't count them.
pub fn zeros(s: &[u8]) -> bool
    ensures { result ≡ every is_zero s.now }
{
    let parts = s.chunks_exact(PART);
    let rest = parts.remainder();
    let mut ok = true;
    for part in parts {
        ok = ok & zeros_in(part);
    }
    ok & zeros_in(rest)
}
