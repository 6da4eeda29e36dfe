// Which of two sectors a store would load from, and why.
ghost use Rattle.std.specs.Prelude.{◌≡◌};
ghost use Rattle.sector.specs.Selection.{by_counters, selection};

use super::Selection;
use superblock::{Superblock, increments1};

fn by_counters(first: u64, second: u64) -> Selection
    ensures { result ≡ by_counters first second }
{
    if increments1(first, second) {
        return Selection::SecondFollows;
    }
    if first == second {
        return Selection::EqualCounters;
    }
    if increments1(second, first) {
        return Selection::FirstFollows;
    }
    Selection::NeitherFollows
}

// Whatever a refused sector is refused with: the answer doesn't look at it.
pub fn select<E: Copy>(first: Result<Superblock, E>, second: Result<Superblock, E>) -> Selection
    ensures { result ≡ selection first second }
{
    match (first, second) {
        (Ok(s), Ok(t)) => by_counters(s.counter, t.counter),
        (Ok(_), Err(_)) => Selection::SecondRefused,
        (Err(_), Ok(_)) => Selection::FirstRefused,
        (Err(_), Err(_)) => Selection::BothRefused,
    }
}
