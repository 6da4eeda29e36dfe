// A walk from range to range: each says how long it is.
ghost use Rattle.std.specs.Prelude.{◌≡◌};
ghost use Rattle.laws.specs.Choice.{ask};
ghost use Rattle.range.specs.Form.{all_entries, all_parse};
ghost use Rattle.reader.specs.Answer.{scanned};

use range::{BLOCK_SIZE, Count};
use reader::range_in_front;
use refusal::Refusal;

// How many entries the ranges have, and how many bytes these have together. Question 7 where the bytes aren't ranges to the last one.
pub fn scan(s: &[u8]) -> Result<Count, Refusal>
    ensures { result ≡ scanned (ask 7 (all_parse s.now)) (all_entries s.now) }
{
    let mut at = 0;
    let mut entries: u64 = 0;
    let mut bytes: u64 = 0;
    while at < s.len() {
        let Some(c) = range_in_front(&s[at..]) else {
            return Err(Refusal::Parse);
        };
        entries += c.entries as u64;
        bytes += c.bytes as u64;
        at += c.blocks * BLOCK_SIZE;
    }
    Ok(Count { entries, bytes })
}
