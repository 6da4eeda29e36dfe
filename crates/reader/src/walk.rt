// Walks over a run of bytes: the lengths are summed and looked at. A loop or a fold keeps a sum or a flag and has no way
// out, so that the compiler can look at many bytes at once.
ghost use Rattle.std.specs.Prelude.{◌≡◌, ◌*◌, ◌≤◌, ◌<◌, length};
ghost use Rattle.laws.specs.Fold.{sum, every};
ghost use Rattle.range.specs.Form.{most_entry_length, ok_length};

// So many lengths are added at once.
const PART: usize = 64;

// The sum of a few lengths.
fn total_in(lengths: &[u8]) -> u32
    requires { length lengths.now < 65536 }
    ensures { (result ≡ sum lengths.now) × (result ≤ 255 * length lengths.now) }
{
    let mut bytes: u32 = 0;
    for &length in lengths {
        bytes += u32::from(length);
    }
    bytes
}

// The sum of the lengths, which has 32 bits. By parts of one size, which the compiler knows: it adds each as bytes, 16 by one instruction.
pub(crate) fn total(lengths: &[u8]) -> u32
    requires { length lengths.now < 65536 }
    ensures { (result ≡ sum lengths.now) × (result ≤ 255 * length lengths.now) }
{
    let parts = lengths.chunks_exact(PART);
    let rest = parts.remainder();
    let mut bytes: u32 = 0;
    for part in parts {
        bytes += total_in(part);
    }
    bytes + total_in(rest)
}

// Is every length within the limits? A byte can't be above the greatest length.
pub(crate) fn lengths_ok(lengths: &[u8]) -> bool
    ensures { result ≡ every (ok_length most_entry_length) lengths.now }
{
    lengths.iter().fold(true, |ok, length| ok & (1 <= *length))
}
