// The bytes that a word says in hexadecimal.
ghost use Rattle.std.specs.Prelude.{true, ◌≡◌, ◌+◌, ◌*◌, leb, length};
ghost use Rattle.laws.specs.Choice.{also};
ghost use Rattle.laws.specs.Fold.{every};
ghost use Rattle.laws.specs.Splice.{splice};
ghost use Rattle.words.specs.Hex.{nibble_of, is_hex, bytes, fits, Fits, count_of, written, hex_count, hex_written};

use super::Word;

// The value of a hexadecimal digit of either case, or 16.
fn nibble(c: u8) -> u8
    ensures { result ≡ nibble_of c }
{
    match c {
        48..=57 => c - 48,
        65..=70 => c - 55,
        97..=102 => c - 87,
        _ => 16,
    }
}

// The byte of two digits.
fn byte(high: u8, low: u8) -> u8
    requires { (is_hex high ≡ true) × (is_hex low ≡ true) }
    ensures { result ≡ nibble_of high * 16 + nibble_of low }
{
    let h = nibble(high);
    let l = nibble(low);
    h * 16 + l
}

fn all_digits(digits: &[u8]) -> bool
    ensures { result ≡ every is_hex digits.now }
{
    digits.iter().all(|c| nibble(*c) < 16)
}

// Is there room for `count` bytes from a place on, in `len` of them?
fn has_room(len: usize, at: usize, count: usize) -> bool
    ensures { result ≡ leb (at + count) len }
{
    if len < at {
        return false;
    }
    count <= len - at
}

fn can_write(digits: &[u8], len: usize, at: usize) -> bool
    ensures { result ≡ fits digits.now len at }
{
    let pairs = digits.len() % 2 == 0;
    let room = has_room(len, at, digits.len() / 2);
    let ok = all_digits(digits);
    pairs & room & ok
}

fn write(digits: &[u8], out: &mut [u8], at: usize)
    requires { Fits digits.now (length out.old) at }
    ensures { out.new ≡ splice out.old at (bytes digits.now) }
{
    for j in 0..digits.len() / 2 {
        out[at + j] = byte(digits[j * 2], digits[j * 2 + 1]);
    }
}

// Pairs of digits into `out`, after a look at all of them.
fn put(digits: &[u8], out: &mut [u8], at: usize) -> Option<u64>
    ensures value { result ≡ count_of digits.now (length out.old) at }
    ensures out_after { out.new ≡ written digits.now out.old at }
{
    let ok = can_write(digits, out.len(), at);
    if ok {
        write(digits, out, at);
        return Some((digits.len() / 2) as u64);
    }
    None
}

// Pairs of hexadecimal digits into `out` from a place on: how many bytes. Not, with `out` as it was, where a digit isn't one or has no
// partner, or where `out` has no room.
pub fn hex(line: &[u8], w: Word, out: &mut [u8], at: usize) -> Option<u64>
    ensures value { result ≡ hex_count line.now w (length out.old) at }
    ensures out_after { out.new ≡ hex_written line.now w out.old at }
{
    let digits = w.bytes(line)?;
    put(digits, out, at)
}
