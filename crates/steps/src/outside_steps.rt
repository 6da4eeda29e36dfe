// What befalls a store from outside, whole: landings and crashes. Questions 1 and 2 come first; a refusal hands the store back and alters no lent byte.
ghost use Rattle.std.specs.Prelude.{◌≡◌};
ghost use Rattle.refusal.specs.Refusal.{asked};
ghost use Rattle.store.specs.Lent.{lent, lent_of};
ghost use Rattle.store.specs.Whole.{land, ask_crash, crash, crash_lent, crash_in_place};

use layout::Geometry;
use refusal::Refusal;
use store::{Lent, Store, StoreStepped};

// A landing of slot 1 (`which` 0) or of slot 2.
pub fn land(s: Store, g: Geometry, which: u64, lent: Lent<'_>) -> StoreStepped
    ensures { result ≡ land g (lent_of lent.entry) s which }
{
    if let Err(no) = s.ask_state(g, lent) {
        return s.refused(no);
    }
    s.land_asked(which)
}

// Question 1 of a crash's picture, then questions 1 and 2.
fn ask_crash(
    s: Store,
    g: Geometry,
    picture: &[u8],
    pictured: &[u8],
    lent: Lent<'_>,
) -> Result<(), Refusal>
    ensures { result ≡ asked (ask_crash g (lent_of lent.entry) s picture.now pictured.now) }
{
    journal::ask_journal(g, picture, pictured)?;
    s.ask_state(g, lent)
}

// The crash: blocks and marks under a journal write in flight become the picture's.
pub fn crash(
    s: Store,
    g: Geometry,
    picture: &[u8],
    pictured: &[u8],
    bytes: &[u8],
    lens: &[u16],
    pieces: &[u8],
    rbytes: &[u8],
    rlens: &[u16],
    blocks: &mut [u8],
    marks: &mut [u8],
) -> StoreStepped
    ensures value { result ≡ crash g (lent bytes.now lens.now pieces.now rbytes.now rlens.now blocks.old marks.old) s picture.now pictured.now }
    ensures blocks_after { blocks.new ≡ (crash_lent g (lent bytes.now lens.now pieces.now rbytes.now rlens.now blocks.old marks.old) s picture.now pictured.now).blocks }
    ensures marks_after { marks.new ≡ (crash_lent g (lent bytes.now lens.now pieces.now rbytes.now rlens.now blocks.old marks.old) s picture.now pictured.now).marks }
{
    let machine = machine::Lent {
        bytes,
        lens,
        pieces,
        rbytes,
        rlens,
    };
    let lent = Lent {
        machine,
        blocks,
        marks,
    };
    if let Err(no) = ask_crash(s, g, picture, pictured, lent) {
        return s.refused(no);
    }
    s.crash_asked(picture, pictured, blocks, marks)
}

// The crash whose picture is the disk's own content: no byte is altered.
pub fn crash_in_place(s: Store, g: Geometry, lent: Lent<'_>) -> StoreStepped
    ensures { result ≡ crash_in_place g (lent_of lent.entry) s }
{
    if let Err(no) = s.ask_state(g, lent) {
        return s.refused(no);
    }
    s.crash_in_place_asked()
}
