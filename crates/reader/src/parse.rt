// One range: do the bytes parse as it, and how much does it hold?
ghost use Rattle.std.specs.Prelude.{◌≡◌, length};
ghost use Rattle.refusal.specs.Refusal.{asked, ok_unless};
ghost use Rattle.laws.specs.Choice.{ask};
ghost use Rattle.range.specs.Form.{entries, parses};
ghost use Rattle.reader.specs.Answer.{scanned};
ghost use Rattle.reader.specs.Front.{front_of};
ghost use Rattle.reader.specs.Range.{contents_of, counts_ok};

use super::answer::Contents;
use super::head::{block_count, entry_count};
use super::walk::{lengths_ok, total};
use range::{BLOCK_SIZE, Count, HEAD_SIZE, MOST_ENTRIES, blocks_of};
use refusal::Refusal;
use runs::zeros;

// What the bytes say of themselves; all 0 where head and lengths aren't all there.
pub fn contents(s: &[u8]) -> Contents
    ensures { result ≡ contents_of s.now }
{
    let nothing = Contents {
        blocks: 0,
        entries: 0,
        bytes: 0,
    };
    if s.len() < HEAD_SIZE {
        return nothing;
    }
    let entries = entry_count(s);
    let bodies = HEAD_SIZE + entries;
    if s.len() < bodies {
        return nothing;
    }
    let blocks = block_count(s);
    let bytes = total(&s[HEAD_SIZE..bodies]) as usize;
    Contents {
        blocks,
        entries,
        bytes,
    }
}

// Are the counts those of a range: from 1 to 1,024 entries, and no block more than is needed?
fn counts_ok(c: Contents) -> bool
    ensures { result ≡ counts_ok c }
{
    if c.entries < 1 {
        return false;
    }
    if MOST_ENTRIES < c.entries {
        return false;
    }
    let fewest = blocks_of(c.entries as u64, c.bytes as u64);
    c.blocks as u64 == fewest
}

// The range that the bytes begin with, as long as it says, and what it holds: by one look at the lengths for their sum, one for their
// limits, and one at the padding.
pub fn range_in_front(s: &[u8]) -> Option<Contents>
    ensures { result ≡ front_of s.now }
{
    let c = contents(s);
    let size = c.blocks * BLOCK_SIZE;
    if s.len() < size {
        return None;
    }
    if counts_ok(c) {
        let bodies = HEAD_SIZE + c.entries;
        let end = bodies + c.bytes;
        if lengths_ok(&s[HEAD_SIZE..bodies]) {
            if zeros(&s[end..size]) {
                return Some(c);
            }
        }
    }
    None
}

// How many entries the range has, and how many bytes these have together. Question 7 where the bytes are no range.
pub fn scan_range(s: &[u8]) -> Result<Count, Refusal>
    ensures { result ≡ scanned (ask 7 (parses s.now)) (entries s.now) }
{
    let Some(c) = range_in_front(s) else {
        return Err(Refusal::Parse);
    };
    if s.len() != c.blocks * BLOCK_SIZE {
        return Err(Refusal::Parse);
    }
    Ok(Count {
        entries: c.entries as u64,
        bytes: c.bytes as u64,
    })
}

// Question 7: do the bytes parse as a range?
pub fn ask_range(s: &[u8]) -> Result<(), Refusal>
    ensures { result ≡ asked (ask 7 (parses s.now)) }
{
    scan_range(s)?;
    Ok(())
}

// How many entries the range has.
pub fn count(s: &[u8]) -> Result<u64, Refusal>
    ensures { result ≡ ok_unless (ask 7 (parses s.now)) (length (entries s.now)) }
{
    let c = scan_range(s)?;
    Ok(c.entries)
}
