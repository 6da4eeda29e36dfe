// The number that a word says.
ghost use Rattle.std.specs.Prelude.{◌≡◌};
ghost use Rattle.words.specs.Decimal.{decimal_of, number_of, one_more};

use super::Word;

// One decimal digit more; the largest number is 18,446,744,073,709,551,615.
fn one_more(v: u64, c: u8) -> Option<u64>
    ensures { result ≡ one_more v c }
{
    if !c.is_ascii_digit() {
        return None;
    }
    v.checked_mul(10)?.checked_add(u64::from(c - 48))
}

// The number that decimal digits say.
fn number(digits: &[u8]) -> Option<u64>
    ensures { result ≡ number_of digits.now }
{
    if digits.is_empty() {
        return None;
    }
    let mut v = 0;
    for &c in digits {
        v = one_more(v, c)?;
    }
    Some(v)
}

// A decimal number of 64 bits: one digit or more, and nothing else.
pub fn decimal(line: &[u8], w: Word) -> Option<u64>
    ensures { result ≡ decimal_of line.now w }
{
    let digits = w.bytes(line)?;
    number(digits)
}
