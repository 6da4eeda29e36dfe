// The check number: the sum of some numbers, with the carry past 64 bits dropped.
ghost use Rattle.std.specs.Prelude.{◌≡◌};
ghost use Rattle.sector.specs.Sector.{check_number};

pub fn check_number(numbers: &[u64]) -> u64
    ensures { result ≡ check_number numbers.now }
{
    numbers.iter().fold(0, |sum: u64, n| sum.wrapping_add(*n))
}
