// One entry of a range: its body is a part of the lent bytes.
ghost use Rattle.std.specs.Prelude.{◌≡◌, [], ◌+◌, ◌≤◌, ◌<◌, length, get_or};
ghost use Rattle.refusal.specs.Refusal.{asked};
ghost use Rattle.laws.specs.Choice.{unless};
ghost use Rattle.range.specs.Form.{length_width, most_entry_length, entry_count, entries};
ghost use Rattle.range.specs.Shape.{Shape};
ghost use Rattle.reader.specs.Entry.{ask_entry, body_start};

use super::head::entry_count;
use super::parse::count;
use super::walk::total;
use range::HEAD_SIZE;
use refusal::Refusal;

// Where body i of a range begins: behind the lengths and the bodies before it.
fn body_start(s: &[u8], i: usize) -> usize
    requires { Shape length_width most_entry_length s.now × (i ≤ entry_count s.now) }
    ensures { (result ≡ body_start length_width s.now i) × (result ≤ length s.now) }
{
    let entries = entry_count(s);
    let end = HEAD_SIZE + i;
    let before = total(&s[HEAD_SIZE..end]) as usize;
    HEAD_SIZE + entries + before
}

// Where a body of the given length ends: a place of a slice has 63 bits.
pub(crate) fn body_end(start: usize, length: u8) -> usize
    requires { start < 9223372036854775808 }
    ensures { result ≡ start + length }
{
    start + usize::from(length)
}

// Questions 7 and 4: do the bytes parse, and has the range an entry i?
pub fn entry_refusal(s: &[u8], i: u64) -> Result<(), Refusal>
    ensures { result ≡ asked (ask_entry s.now i) }
{
    let n = count(s)?;
    if i < n {
        return Ok(());
    }
    Err(Refusal::Argument)
}

// The body of entry i, empty where it is refused.
pub fn entry(s: &[u8], i: u64) -> &[u8]
    ensures { result.now ≡ unless (ask_entry s.now i) [] (get_or (entries s.now) i []) }
{
    if entry_refusal(s, i).is_err() {
        return &s[0..0];
    }
    let k = i as usize;
    let at = HEAD_SIZE + k;
    let start = body_start(s, k);
    let end = body_end(start, s[at]);
    &s[start..end]
}
