// The crash whole: questions 1 and 2, then the lent memory. There is no argument that another question could ask.
ghost use Rattle.std.specs.Prelude.{◌≡◌};
ghost use Rattle.refusal.specs.Refusal.{asked};
ghost use Rattle.crash.specs.Whole.{crashed_disk, ask_crash, crash, crash_blocks, crash_marks};

use super::memory::crash_memory;
use disk::{Disk, DiskStepped};
use layout::Geometry;
use refusal::Refusal;

// The disk that a crash leaves: its slots, and no request.
pub fn no_requests(d: Disk) -> Disk
    ensures { result ≡ crashed_disk d }
{
    let slots = d.slots;
    Disk::idle(slots)
}

// Questions 1 and 2: the journal, the picture, the state.
fn ask_crash(
    d: Disk,
    g: Geometry,
    picture: &[u8],
    pictured: &[u8],
    blocks: &[u8],
    marks: &[u8],
) -> Result<(), Refusal>
    ensures { result ≡ asked (ask_crash g d picture.now pictured.now blocks.now marks.now) }
{
    journal::ask_journal(g, blocks, marks)?;
    journal::ask_journal(g, picture, pictured)?;
    d.ask_state(g)
}

// The crash, with a picture: its blocks, and their marks.
pub fn crash(
    d: Disk,
    g: Geometry,
    picture: &[u8],
    pictured: &[u8],
    blocks: &mut [u8],
    marks: &mut [u8],
) -> DiskStepped
    ensures value { result ≡ crash g d picture.now pictured.now blocks.old marks.old }
    ensures blocks_after { blocks.new ≡ crash_blocks g d picture.now pictured.now blocks.old marks.old }
    ensures marks_after { marks.new ≡ crash_marks g d picture.now pictured.now blocks.old marks.old }
{
    if let Err(no) = ask_crash(d, g, picture, pictured, blocks, marks) {
        return d.refused(no);
    }
    let writes = d.journalWrites;
    crash_memory(writes, picture, pictured, blocks, marks);
    let crashed = no_requests(d);
    DiskStepped {
        answer: Ok(()),
        disk: crashed,
    }
}

// The crash whose picture is the disk's own blocks and marks: they can't be lent twice, and none of them changes.
#[tactic(auto, using(refusal::specs::Refusal::questions, laws::specs::Choice::tests, crate::specs::Laws::Whole::own_asks), unfolding(disk::specs::Disk::answered_with))]
pub fn crash_in_place(d: Disk, g: Geometry, blocks: &[u8], marks: &[u8]) -> DiskStepped
    ensures { result ≡ crash g d blocks.now marks.now blocks.now marks.now }
{
    if let Err(no) = d.ask(g, blocks, marks) {
        return d.refused(no);
    }
    let next = no_requests(d);
    DiskStepped {
        answer: Ok(()),
        disk: next,
    }
}
