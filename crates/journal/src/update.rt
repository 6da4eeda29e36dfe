// An interval's blocks written: their bytes, their marks, and both after the questions.
ghost use Rattle.std.specs.Prelude.{◌≡◌};
ghost use Rattle.refusal.specs.Refusal.{asked, ok_unless};
ghost use Rattle.laws.specs.Choice.{unless};
ghost use Rattle.journal.specs.Memory.{update_bytes, update_marks, ask_update};

use super::questions::{ask_journal, ask_size};
use super::size::bytes_of;
use interval::JournalInterval;
use layout::Geometry;
use refusal::Refusal;

// `new` from the interval's first block on, going round once at most; a start past the ring is its first block. It asks nothing.
pub fn write_blocks(v: JournalInterval, new: &[u8], blocks: &mut [u8])
    ensures { blocks.new ≡ update_bytes blocks.old v new.now }
{
    let at = bytes_of(v.start, blocks.len());
    runs::write_around(new, blocks, at);
}

// The marks of the interval's blocks become 1. It asks nothing.
pub fn set_marks(v: JournalInterval, marks: &mut [u8])
    ensures { marks.new ≡ update_marks marks.old v }
{
    runs::fill_around(1, v.len as usize, marks, v.start as usize);
}

fn ask_update(
    g: Geometry,
    v: JournalInterval,
    new: &[u8],
    blocks: &[u8],
    marks: &[u8],
) -> Result<(), Refusal>
    ensures { result ≡ asked (ask_update g v new.now blocks.now marks.now) }
{
    ask_journal(g, blocks, marks)?;
    v.ask(g)?;
    ask_size(v, new)
}

// The interval's blocks become `new`, and their marks 1.
pub fn journal_update(
    g: Geometry,
    v: JournalInterval,
    new: &[u8],
    blocks: &mut [u8],
    marks: &mut [u8],
) -> Result<u64, Refusal>
    ensures value { result ≡ ok_unless (ask_update g v new.now blocks.old marks.old) v.len }
    ensures blocks_after { blocks.new ≡ unless (ask_update g v new.now blocks.old marks.old) blocks.old (update_bytes blocks.old v new.now) }
    ensures marks_after { marks.new ≡ unless (ask_update g v new.now blocks.old marks.old) marks.old (update_marks marks.old v) }
{
    ask_update(g, v, new, blocks, marks)?;
    write_blocks(v, new, blocks);
    set_marks(v, marks);
    Ok(v.len)
}
