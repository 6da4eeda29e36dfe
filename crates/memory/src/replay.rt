// Replay memory: N blocks of bytes and as many lengths. The entries stay in place, and what is taken of them is counted; the state is what
// is left.
ghost use Rattle.std.specs.Prelude.{◌≡◌};
ghost use Rattle.refusal.specs.Refusal.{asked, ok_unless};
ghost use Rattle.memory.specs.Given.{memory};
ghost use Rattle.memory.specs.Replay.{ask_replay_lent, ask_replay, left_of, is_next, next_answer};

use super::Count;
use super::given::count_given;
use layout::Geometry;
use lengths::entries_held;
use refusal::Refusal;
use runs::same_at;

// Question 1 of replay memory, by N and the lent lengths. N is the caller's, and isn't read off a length, which could be another store's.
pub fn ask_replay_lent(blocks: u64, bytes: usize, lens: usize) -> Result<(), Refusal>
    ensures { result ≡ asked (ask_replay_lent blocks bytes lens) }
{
    if (1..=Geometry::MOST_BLOCKS).contains(&blocks) {
        let size = blocks * Geometry::BLOCK_SIZE;
        if bytes as u64 == size && lens as u64 == size {
            return Ok(());
        }
    }
    Err(Refusal::Sizes)
}

// Questions 1 and 2 of replay memory that holds n entries, of which some are taken; and what is left. Only the lengths from what is taken
// on are looked at.
pub fn count_left(
    blocks: u64,
    bytes: &[u8],
    lens: &[u16],
    n: u64,
    taken: Count,
) -> Result<Count, Refusal>
    ensures { result ≡ ok_unless (ask_replay blocks (memory bytes.now lens.now n) taken) (left_of (memory bytes.now lens.now n) taken) }
{
    ask_replay_lent(blocks, bytes.len(), lens.len())?;
    let size = bytes.len() as u64;
    if size < taken.bytes {
        return Err(Refusal::State);
    }
    let left = entries_held(lens, taken.entries, n, size - taken.bytes).ok_or(Refusal::State)?;
    Ok(Count {
        entries: n - taken.entries,
        bytes: left,
    })
}

// Are the new entries the next of those that are left, by their lengths and by their bytes? Asks nothing.
pub fn is_next(
    bytes: &[u8],
    lens: &[u16],
    left: u64,
    taken: Count,
    bodies: &[u8],
    sizes: &[u16],
    new: Count,
) -> bool
    ensures { result ≡ is_next bytes.now lens.now left taken bodies.now sizes.now new }
{
    if left < new.entries {
        return false;
    }
    let lengths = same_at(sizes, new.entries as usize, lens, taken.entries as usize);
    let body = same_at(bodies, new.bytes as usize, bytes, taken.bytes as usize);
    lengths & body
}

// The k given entries are taken: questions 1, 2 and 4, then 6, that they are exactly the next k of the replay.
pub fn next_of_replay(
    blocks: u64,
    bytes: &[u8],
    lens: &[u16],
    n: u64,
    taken: Count,
    bodies: &[u8],
    sizes: &[u16],
    k: u64,
) -> Result<Count, Refusal>
    ensures { result ≡ next_answer blocks (memory bytes.now lens.now n) taken (memory bodies.now sizes.now k) }
{
    let left = count_left(blocks, bytes, lens, n, taken)?;
    let new = count_given(bodies, sizes, k)?;
    if is_next(bytes, lens, left.entries, taken, bodies, sizes, new) {
        return Ok(Count {
            entries: taken.entries + new.entries,
            bytes: taken.bytes + new.bytes,
        });
    }
    Err(Refusal::Condition)
}
