// Walks over a part of the lengths, of few enough that their sum has 32 bits. A loop keeps a flag or a sum and has no way out, so that the
// compiler can look at many lengths at once.
ghost use Rattle.std.specs.Prelude.{◌≡◌, ◌≤◌, length};
ghost use Rattle.laws.specs.Choice.{also};
ghost use Rattle.laws.specs.Fold.{sum, every};
ghost use Rattle.range.specs.Form.{ok_length};

fn and_ok(ok: bool, length: u16, most: u16) -> bool
    ensures { result ≡ also ok (ok_length most length) }
{
    let low = 1 <= length;
    let high = length <= most;
    ok & (low & high)
}

// Does each length lie from 1 to a greatest one?
pub(crate) fn every_length_ok(lens: &[u16], most: u16) -> bool
    ensures { result ≡ every (ok_length most) lens.now }
{
    let mut ok = true;
    for &length in lens {
        ok = and_ok(ok, length, most);
    }
    ok
}

pub(crate) fn total(lens: &[u16]) -> u32
    requires { length lens.now ≤ 65536 }
    ensures { result ≡ sum lens.now }
{
    let mut bytes: u32 = 0;
    for &length in lens {
        bytes += u32::from(length);
    }
    bytes
}
