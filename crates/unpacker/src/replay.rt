// The entries of ranges into replay memory: one copy of the bodies of a range and one of its lengths, range after range.
ghost use Rattle.std.specs.Prelude.{◌≡◌};
ghost use Rattle.laws.specs.Choice.{unless};
ghost use Rattle.laws.specs.Splice.{splice, clipped};
ghost use Rattle.laws.specs.Cut.{flat, lengths};
ghost use Rattle.range.specs.Form.{all_entries};
ghost use Rattle.reader.specs.Answer.{scanned};
ghost use Rattle.reader.specs.Range.{contents_of};
ghost use Rattle.reader.specs.Front.{InFront, front_entries};
ghost use Rattle.unpacker.specs.Unpack.{ask_unpack, Room};

use super::ranges::scan;
use range::{BLOCK_SIZE, Count, HEAD_SIZE};
use reader::{Contents, contents};
use refusal::Refusal;
use runs::{widen, write};

// The bodies of the range in front of s to `bytes` from `at` on, its lengths to `lens` from `n` on.
fn unpack_range(s: &[u8], bytes: &mut [u8], at: usize, lens: &mut [u16], n: usize) -> Contents
    requires { InFront s.now }
    ensures value { result ≡ contents_of s.now }
    ensures bytes_after { bytes.new ≡ clipped bytes.old at (flat (front_entries s.now)) }
    ensures lens_after { lens.new ≡ clipped lens.old n (lengths (front_entries s.now)) }
{
    let c = contents(s);
    let bodies = HEAD_SIZE + c.entries;
    let end = bodies + c.bytes;
    write(&s[bodies..end], bytes, at);
    widen(&s[HEAD_SIZE..bodies], lens, n);
    c
}

// All ranges of bytes that parse, to memory that has a place for each byte.
fn unpack_all(s: &[u8], bytes: &mut [u8], lens: &mut [u16])
    requires { Room s.now bytes.old lens.old }
    ensures bytes_after { bytes.new ≡ splice bytes.old 0 (flat (all_entries s.now)) }
    ensures lens_after { lens.new ≡ splice lens.old 0 (lengths (all_entries s.now)) }
{
    let mut at = 0;
    let mut n = 0;
    let mut t = 0;
    while at < s.len() {
        let c = unpack_range(&s[at..], bytes, t, lens, n);
        at += c.blocks * BLOCK_SIZE;
        n += c.entries;
        t += c.bytes;
    }
}

// The entries of all ranges into replay memory, which has a place for each byte (question 1): their bodies to the front of `bytes`, their
// lengths to the front of `lens`. Question 7 where the bytes aren't ranges to the last one.
pub fn unpack(s: &[u8], bytes: &mut [u8], lens: &mut [u16]) -> Result<Count, Refusal>
    ensures value { result ≡ scanned (ask_unpack s.now bytes.old lens.old) (all_entries s.now) }
    ensures bytes_after { bytes.new ≡ unless (ask_unpack s.now bytes.old lens.old) bytes.old (splice bytes.old 0 (flat (all_entries s.now))) }
    ensures lens_after { lens.new ≡ unless (ask_unpack s.now bytes.old lens.old) lens.old (splice lens.old 0 (lengths (all_entries s.now))) }
{
    if bytes.len() < s.len() {
        return Err(Refusal::Sizes);
    }
    if lens.len() < s.len() {
        return Err(Refusal::Sizes);
    }
    let c = scan(s)?;
    unpack_all(s, bytes, lens);
    Ok(c)
}
