// Pending entries as one range.
ghost use Rattle.std.specs.Prelude.{◌≡◌, ◌*◌};
ghost use Rattle.laws.specs.Choice.{unless};
ghost use Rattle.laws.specs.Around.{splice_around};
ghost use Rattle.range.specs.Form.{block_size, blocks, encode};
ghost use Rattle.range.specs.Memory.{view};
ghost use Rattle.writer.specs.Entries.{ask_entries};
ghost use Rattle.writer.specs.Ring.{ask_write};

use writer::{range_blocks, write_range};

// How many blocks the range of the first n entries takes.
#[unsafe(no_mangle)]
pub extern "C" fn wokujani_range_blocks(bytes: &[u8], lens: &[u16], n: u64, taken: &mut u64) -> u8
    ensures value { result ≡ ask_entries bytes.now lens.now n }
    ensures taken_after { taken.new ≡ unless (ask_entries bytes.now lens.now n) taken.old (blocks (view bytes.now lens.now n)) }
{
    match range_blocks(bytes, lens, n) {
        Ok(b) => {
            *taken = b;
            0
        },
        Err(no) => no.number(),
    }
}

// The range of the first n entries into the journal's ring, from block `start` on; and its blocks.
#[unsafe(no_mangle)]
pub extern "C" fn wokujani_write_range(
    bytes: &[u8],
    lens: &[u16],
    n: u64,
    journal: &mut [u8],
    start: u64,
    taken: &mut u64,
) -> u8
    ensures value { result ≡ ask_write bytes.now lens.now n journal.old start }
    ensures journal_after { journal.new ≡ unless (ask_write bytes.now lens.now n journal.old start) journal.old (splice_around journal.old (start * block_size) (encode (view bytes.now lens.now n))) }
    ensures taken_after { taken.new ≡ unless (ask_write bytes.now lens.now n journal.old start) taken.old (blocks (view bytes.now lens.now n)) }
{
    match write_range(bytes, lens, n, journal, start) {
        Ok(b) => {
            *taken = b;
            0
        },
        Err(no) => no.number(),
    }
}
