// A range into the journal's ring, run by run: the head, the lengths, the bodies, the padding. Each run is cut where the ring ends.
ghost use Rattle.std.specs.Prelude.{◌≡◌, ◌+◌, ◌*◌, ◌≤◌};
ghost use Rattle.refusal.specs.Refusal.{asked, ok_unless};
ghost use Rattle.laws.specs.Choice.{ask, unless};
ghost use Rattle.laws.specs.Ring.{wrap};
ghost use Rattle.laws.specs.Around.{splice_around};
ghost use Rattle.range.specs.Form.{block_size, length_width, blocks, encode};
ghost use Rattle.range.specs.Memory.{view, range_from};
ghost use Rattle.range.specs.Runs.{head};
ghost use Rattle.writer.specs.Ring.{journal_ok, ask_write, put_ok, put_range, Puts};

use super::size::size_of_range;
use layout::Geometry;
use numbers::put_number;
use range::{BLOCK_SIZE, HEAD_SIZE, MOST_ENTRIES, blocks_of};
use refusal::Refusal;
use runs::{fill_around, narrow_around, write_around};

const MOST_BLOCKS: usize = Geometry::MOST_BLOCKS as usize;

// Question 1: is a journal of so many bytes from 1 to 4,096 whole blocks?
fn ask_journal(len: usize) -> Result<(), Refusal>
    ensures { result ≡ asked (ask 1 (journal_ok len)) }
{
    if len % BLOCK_SIZE != 0 {
        return Err(Refusal::Sizes);
    }
    if len / BLOCK_SIZE < 1 {
        return Err(Refusal::Sizes);
    }
    if MOST_BLOCKS < len / BLOCK_SIZE {
        return Err(Refusal::Sizes);
    }
    Ok(())
}

// A place on the ring, from a number below twice its length.
fn wrapped(len: usize, place: usize) -> usize
    ensures { result ≡ wrap len place }
{
    if len <= place {
        return place - len;
    }
    place
}

// The two counts.
fn head_bytes(blocks: usize, n: usize) -> [u8; 4]
    ensures { result ≡ head blocks n }
{
    let mut head = [0; 4];
    put_number(blocks as u64, 2, &mut head, 0);
    put_number(n as u64, 2, &mut head, 2);
    head
}

// How many zeros fill the blocks behind so many bytes.
fn zeros_behind(used: usize, blocks: usize) -> usize
    requires { (used ≤ blocks * block_size) × (blocks * block_size ≤ 18446744073709551615) }
    ensures { result + used ≡ blocks * block_size }
{
    blocks * BLOCK_SIZE - used
}

// The range of the first n entries, with so many bytes of bodies and so many blocks, from the place `at` on. Head and lengths lie within
// the first block; bodies and padding may go round.
fn put(
    bytes: &[u8],
    lens: &[u16],
    n: usize,
    bodies: usize,
    blocks: usize,
    journal: &mut [u8],
    at: usize,
)
    requires { Puts bytes.now lens.now n bodies blocks journal.old at }
    ensures { journal.new ≡ splice_around journal.old at (range_from length_width bytes.now lens.now n bodies) }
{
    let head = head_bytes(blocks, n);
    let lengths_at = at + HEAD_SIZE;
    let bodies_at = lengths_at + n;
    let padding_at = wrapped(journal.len(), bodies_at + bodies);
    let zeros = zeros_behind(HEAD_SIZE + n + bodies, blocks);
    write_around(&head[0..HEAD_SIZE], journal, at);
    narrow_around(&lens[0..n], journal, lengths_at);
    write_around(&bytes[0..bodies], journal, bodies_at);
    fill_around(0, zeros, journal, padding_at);
}

// Are the entries, their lengths and their bytes there, and does their range lie in a journal of so many blocks?
fn puts(bytes: usize, lens: usize, n: u64, bodies: u64, all: u64, start: u64) -> bool
    ensures { result ≡ put_ok bytes lens n bodies all start }
{
    if (MOST_ENTRIES as u64) < n {
        return false;
    }
    if (lens as u64) < n {
        return false;
    }
    if (bytes as u64) < bodies {
        return false;
    }
    if all <= start {
        return false;
    }
    let blocks = blocks_of(n, bodies);
    blocks <= all
}

// The range of the first n entries, which have so many bytes, written from block `start` on. Asks nothing of the lengths: it takes the
// caller's count, and writes nothing where entries, bytes or blocks aren't there.
pub fn put_range(bytes: &[u8], lens: &[u16], n: u64, bodies: u64, journal: &mut [u8], start: u64)
    ensures { journal.new ≡ put_range bytes.now lens.now n bodies journal.old start }
{
    let all = (journal.len() / BLOCK_SIZE) as u64;
    let ok = puts(bytes.len(), lens.len(), n, bodies, all, start);
    if ok {
        let blocks = blocks_of(n, bodies);
        put(
            bytes,
            lens,
            n as usize,
            bodies as usize,
            blocks as usize,
            journal,
            start as usize * BLOCK_SIZE,
        );
    }
}

// The range of the first n entries, written from block `start` on.
pub fn write_range(
    bytes: &[u8],
    lens: &[u16],
    n: u64,
    journal: &mut [u8],
    start: u64,
) -> Result<u64, Refusal>
    ensures value { result ≡ ok_unless (ask_write bytes.now lens.now n journal.old start) (blocks (view bytes.now lens.now n)) }
    ensures journal_after { journal.new ≡ unless (ask_write bytes.now lens.now n journal.old start) journal.old (splice_around journal.old (start * block_size) (encode (view bytes.now lens.now n))) }
{
    ask_journal(journal.len())?;
    let all = (journal.len() / BLOCK_SIZE) as u64;
    if all <= start {
        return Err(Refusal::Argument);
    }
    let size = size_of_range(bytes, lens, n)?;
    if all < size.blocks {
        return Err(Refusal::Room);
    }
    put_range(bytes, lens, n, size.bodies, journal, start);
    Ok(size.blocks)
}
