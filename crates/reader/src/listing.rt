// A listing of a range: where each body begins.
ghost use Rattle.std.specs.Prelude.{◌≡◌, ◌≤◌, length};
ghost use Rattle.laws.specs.Choice.{unless};
ghost use Rattle.laws.specs.Splice.{splice};
ghost use Rattle.range.specs.Form.{length_width, most_entries, most_entry_length, entry_count, entries};
ghost use Rattle.range.specs.Shape.{Shape};
ghost use Rattle.refusal.specs.Refusal.{ok_unless};
ghost use Rattle.reader.specs.Listing.{body_starts, ask_list};

use super::body::body_end;
use super::parse::count;
use range::{HEAD_SIZE, MOST_ENTRIES};
use refusal::Refusal;

// The starts of a range's bodies, to the front of `starts`.
fn list_bodies(s: &[u8], n: usize, starts: &mut [u64])
    requires { Shape length_width most_entry_length s.now × (n ≡ entry_count s.now) × (most_entries ≤ length starts.old) }
    ensures { starts.new ≡ splice starts.old 0 (body_starts length_width s.now) }
{
    let mut at = HEAD_SIZE + n;
    for i in 0..n {
        starts[i] = at as u64;
        at = body_end(at, s[HEAD_SIZE + i]);
    }
}

// Where each body begins, written to the front of `starts`, which has 1,024 places: questions 1 and 7.
pub fn list(s: &[u8], starts: &mut [u64]) -> Result<u64, Refusal>
    ensures value { result ≡ ok_unless (ask_list s.now starts.old) (length (entries s.now)) }
    ensures starts_after { starts.new ≡ unless (ask_list s.now starts.old) starts.old (splice starts.old 0 (body_starts length_width s.now)) }
{
    if starts.len() != MOST_ENTRIES {
        return Err(Refusal::Sizes);
    }
    let n = count(s)?;
    list_bodies(s, n as usize, starts);
    Ok(n)
}
