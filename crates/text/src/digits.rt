// Numbers and bytes as digits.
ghost use Rattle.std.specs.Prelude.{◌≡◌, [], ◌∷◌, ◌/◌, ◌%◌, ◌<◌, length};
ghost use Rattle.io.specs.Digits.{hex_digit_ascii as digit};
ghost use Rattle.laws.specs.Splice.{clipped};
ghost use Rattle.text.specs.Text.{after, decimal, hex_of};

use super::pieces::put;

pub fn put_decimal(n: u64, text: &mut [u8], at: usize) -> usize
    ensures value { result ≡ after at (length (decimal n)) (length text.old) }
    ensures text_after { text.new ≡ clipped text.old at (decimal n) }
{
    let mut digits = [0u8; 20];
    let k = io::decimal(n, &mut digits);
    put(&digits[..k], text, at)
}

fn glyph(d: u8) -> u8
    requires { d < 16 }
    ensures { result ≡ digit d }
{
    if d < 10 {
        return 48 + d;
    }
    87 + d
}

fn pair(b: u8) -> [u8; 2]
    ensures { result ≡ digit (b / 16) ∷ digit (b % 16) ∷ [] }
{
    let high = glyph(b / 16);
    let low = glyph(b % 16);
    [high, low]
}

pub fn put_hex(bytes: &[u8], text: &mut [u8], at: usize) -> usize
    ensures value { result ≡ after at (length (hex_of bytes.now)) (length text.old) }
    ensures text_after { text.new ≡ clipped text.old at (hex_of bytes.now) }
{
    let mut place = at.min(text.len());
    for &b in bytes {
        let two = pair(b);
        place = put(&two, text, place);
    }
    place
}
