// How large the range of some entries is.
ghost use Rattle.std.specs.Prelude.{◌≡◌};
ghost use Rattle.range.specs.Form.{blocks};
ghost use Rattle.range.specs.Memory.{view};
ghost use Rattle.refusal.specs.Refusal.{ok_unless};
ghost use Rattle.writer.specs.Entries.{ask_entries, size_of};

use lengths::entries_held;
use range::blocks_of;
use refusal::Refusal;

const MOST_ENTRIES: u64 = range::MOST_ENTRIES as u64;

// The bytes of a range's bodies, and its blocks.
#[derive(Clone, Copy)]
pub(crate) struct Sized {
    pub bodies: u64,
    pub blocks: u64,
}

// What the range of the first n entries takes, after question 4: 1 to 1,024 of them, each length allowed, and the bodies all there.
pub(crate) fn size_of_range(bytes: &[u8], lens: &[u16], n: u64) -> Result<Sized, Refusal>
    ensures { result ≡ ok_unless (ask_entries bytes.now lens.now n) (size_of bytes.now lens.now n) }
{
    if n < 1 {
        return Err(Refusal::Argument);
    }
    if MOST_ENTRIES < n {
        return Err(Refusal::Argument);
    }
    let Some(bodies) = entries_held(lens, 0, n, bytes.len() as u64) else {
        return Err(Refusal::Argument);
    };
    let blocks = blocks_of(n, bodies);
    Ok(Sized { bodies, blocks })
}

// The blocks of the range of the first n entries.
pub fn range_blocks(bytes: &[u8], lens: &[u16], n: u64) -> Result<u64, Refusal>
    ensures { result ≡ ok_unless (ask_entries bytes.now lens.now n) (blocks (view bytes.now lens.now n)) }
{
    let size = size_of_range(bytes, lens, n)?;
    Ok(size.blocks)
}
