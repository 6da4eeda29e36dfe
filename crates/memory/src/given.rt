// Entries that a caller brings.
ghost use Rattle.std.specs.Prelude.{◌≡◌};
ghost use Rattle.refusal.specs.Refusal.{ok_unless};
ghost use Rattle.memory.specs.Given.{memory, count_of, ask_given, ask_added};

use super::Count;
use super::blank::none_blank;
use lengths::entries_held;
use refusal::Refusal;

const MOST_GIVEN: u64 = 16;

// Question 4 of the first k entries: 0 to 16 of them, and their bytes are there. And what they are.
pub fn count_given(bodies: &[u8], sizes: &[u16], k: u64) -> Result<Count, Refusal>
    ensures { result ≡ ok_unless (ask_given (memory bodies.now sizes.now k)) (count_of (memory bodies.now sizes.now k)) }
{
    if MOST_GIVEN < k {
        return Err(Refusal::Argument);
    }
    let bytes = entries_held(sizes, 0, k, bodies.len() as u64).ok_or(Refusal::Argument)?;
    Ok(Count { entries: k, bytes })
}

// The same of the entries of an add: 13 where one of them is of zeros only.
pub fn count_added(bodies: &[u8], sizes: &[u16], k: u64) -> Result<Count, Refusal>
    ensures { result ≡ ok_unless (ask_added (memory bodies.now sizes.now k)) (count_of (memory bodies.now sizes.now k)) }
{
    let given = count_given(bodies, sizes, k)?;
    if none_blank(bodies, &sizes[..k as usize]) {
        return Ok(given);
    }
    Err(Refusal::Blank)
}
