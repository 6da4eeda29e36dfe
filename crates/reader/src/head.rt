// The head: two counts of two bytes each, low byte first.
ghost use Rattle.std.specs.Prelude.{◌≡◌, ◌<◌};
ghost use Rattle.range.specs.Form.{block_count, entry_count};

use numbers::number_at;

// A count's bytes, and where the second one lies.
const COUNT_SIZE: usize = 2;

pub(crate) fn block_count(s: &[u8]) -> usize
    ensures { (result ≡ block_count s.now) × (result < 65536) }
{
    number_at(s, 0, COUNT_SIZE) as usize
}

pub(crate) fn entry_count(s: &[u8]) -> usize
    ensures { (result ≡ entry_count s.now) × (result < 65536) }
{
    number_at(s, COUNT_SIZE, COUNT_SIZE) as usize
}
