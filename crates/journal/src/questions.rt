// Question 1 of the lent blocks and marks, and question 4 of bytes that are to be an interval's blocks.
ghost use Rattle.std.specs.Prelude.{◌≡◌};
ghost use Rattle.refusal.specs.Refusal.{asked};
ghost use Rattle.laws.specs.Fold.{every};
ghost use Rattle.journal.specs.Memory.{is_mark, ask_blocks, ask_marks, ask_journal, ask_size};

use interval::JournalInterval;
use layout::Geometry;
use refusal::Refusal;

// Question 1, of lent blocks: N times 4,096 bytes. Of the journal, and of any buffer or picture of its size.
pub fn ask_blocks(g: Geometry, blocks: &[u8]) -> Result<(), Refusal>
    ensures { result ≡ asked (ask_blocks g blocks.now) }
{
    g.ask()?;
    let size = g.blocks * Geometry::BLOCK_SIZE;
    if blocks.len() as u64 == size {
        return Ok(());
    }
    Err(Refusal::Sizes)
}

// Is every mark 0 or 1? The fold has no way out, so that it takes many marks at once.
fn marks_ok(marks: &[u8]) -> bool
    ensures { result ≡ every is_mark marks.now }
{
    marks.iter().fold(true, |ok, mark| ok & (*mark <= 1))
}

// Question 1, of lent marks: N of them, each 0 or 1.
pub fn ask_marks(g: Geometry, marks: &[u8]) -> Result<(), Refusal>
    ensures { result ≡ asked (ask_marks g marks.now) }
{
    g.ask()?;
    if marks.len() as u64 == g.blocks && marks_ok(marks) {
        return Ok(());
    }
    Err(Refusal::Sizes)
}

// Question 1, of the lent journal.
pub fn ask_journal(g: Geometry, blocks: &[u8], marks: &[u8]) -> Result<(), Refusal>
    ensures { result ≡ asked (ask_journal g blocks.now marks.now) }
{
    ask_blocks(g, blocks)?;
    ask_marks(g, marks)
}

// Question 4, of bytes that are to be an interval's blocks: as many as its len, of 4,096 bytes each.
pub fn ask_size(v: JournalInterval, bytes: &[u8]) -> Result<(), Refusal>
    ensures { result ≡ asked (ask_size v bytes.now) }
{
    let size = bytes.len() as u64;
    if size % Geometry::BLOCK_SIZE == 0 && size / Geometry::BLOCK_SIZE == v.len {
        return Ok(());
    }
    Err(Refusal::Argument)
}
