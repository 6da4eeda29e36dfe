// Entries that are held: part after part, so that a second look at a part finds it near, and a sum of a part has 32 bits.
ghost use Rattle.std.specs.Prelude.{◌≡◌, ◌≤◌, length};
ghost use Rattle.lengths.specs.Held.{held_of};
ghost use Rattle.lengths.specs.Entries.{entries_held};

use super::walk::{every_length_ok, total};
use range::MOST_ENTRY_LENGTH;

// The lengths of one part.
const PART: usize = 4096;

fn part_held(lens: &[u16], most: u16, room: u64) -> Option<u64>
    requires { length lens.now ≤ 65536 }
    ensures { result ≡ held_of most room lens.now }
{
    let ok = every_length_ok(lens, most);
    let bytes = total(lens) as u64;
    if ok {
        if bytes <= room {
            return Some(bytes);
        }
    }
    None
}

// Is each length from 1 to the greatest one, and do they sum to at most `room`? No sum passes it, so none passes 64 bits.
fn lengths_held(lens: &[u16], most: u16, room: u64) -> Option<u64>
    ensures { result ≡ held_of most room lens.now }
{
    let mut sum: u64 = 0;
    for part in lens.chunks(PART) {
        sum += part_held(part, most, room - sum)?;
    }
    Some(sum)
}

// The entries from place `from` up to `to`: are they there, is each of an allowed length, and do their bytes fit in `room`?
pub fn entries_held(lens: &[u16], from: u64, to: u64, room: u64) -> Option<u64>
    ensures { result ≡ entries_held room lens.now from to }
{
    if to < from {
        return None;
    }
    let start = from as usize;
    let end = to as usize;
    if lens.len() < end {
        return None;
    }
    lengths_held(&lens[start..end], MOST_ENTRY_LENGTH, room)
}
