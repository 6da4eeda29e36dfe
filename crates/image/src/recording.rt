// The record of a disk.
ghost use Rattle.std.specs.Prelude.{◌≡◌, length};
ghost use Rattle.refusal.specs.Refusal.{asked};
ghost use Rattle.laws.specs.Choice.{and_then};
ghost use Rattle.laws.specs.Splice.{splice};
ghost use Rattle.journal.specs.Memory.{ask_marks};
ghost use Rattle.image.specs.Image.{ask_image, before, after, unmarked, marked, interval_bytes, pieces_after, record_of, record_lent};
ghost use Rattle.image.specs.Found.{Fetches, found_in, found_lent, held_in};

use super::choosing::{choose, of_slot};
use super::reading::ask_image;
use super::{Choice, Held, Refused};
use interval::JournalInterval;
use journal::{ask_marks, ask_readable, cyclic_slice_bytes};
use layout::Geometry;
use range::Count;
use refusal::Refusal;
use superblock::Superblock;
use unpacker::unpack;

// The blocks of an interval that goes round, in order to the front of `pieces`, and their entries to replay memory.
fn fetch_round(
    g: Geometry,
    s: Superblock,
    disk: &[u8],
    pieces: &mut [u8],
    rbytes: &mut [u8],
    rlens: &mut [u16],
) -> Result<Count, Refusal>
    requires { Fetches g s (length disk.now) (length pieces.old) (length rbytes.old) (length rlens.old) }
    ensures value { result ≡ found_in g disk.now s }
    ensures lent_after { after pieces rbytes rlens ≡ found_lent g disk.now s (splice pieces.old 0 (interval_bytes g disk.now s)) (before pieces rbytes rlens) }
{
    let v = JournalInterval {
        start: s.journalStart,
        len: s.journalLen,
    };
    let start = Geometry::JOURNAL_START_ADDR as usize;
    let end = disk.len();
    let copied = cyclic_slice_bytes(g, v, &disk[start..end], pieces);
    let n = (s.journalLen * Geometry::BLOCK_SIZE) as usize;
    unpack(&pieces[0..n], rbytes, rlens)
}

// The entries of a well-formed superblock's interval to replay memory; where it lies straight, from where it lies. Question 7 where its blocks
// aren't ranges to the last one.
fn fetch(
    g: Geometry,
    s: Superblock,
    disk: &[u8],
    pieces: &mut [u8],
    rbytes: &mut [u8],
    rlens: &mut [u16],
) -> Result<Count, Refusal>
    requires { Fetches g s (length disk.now) (length pieces.old) (length rbytes.old) (length rlens.old) }
    ensures value { result ≡ found_in g disk.now s }
    ensures lent_after { after pieces rbytes rlens ≡ found_lent g disk.now s (pieces_after g disk.now s pieces.old) (before pieces rbytes rlens) }
{
    if s.journalStart + s.journalLen <= g.blocks {
        let at = (Geometry::JOURNAL_START_ADDR + s.journalStart * Geometry::BLOCK_SIZE) as usize;
        let n = (s.journalLen * Geometry::BLOCK_SIZE) as usize;
        return unpack(&disk[at..at + n], rbytes, rlens);
    }
    fetch_round(g, s, disk, pieces, rbytes, rlens)
}

// Question 1 with the marks.
fn ask_marked(
    g: Geometry,
    disk: usize,
    marks: &[u8],
    pieces: usize,
    rbytes: usize,
    rlens: usize,
) -> Result<(), Refusal>
    ensures { result ≡ asked (and_then (ask_image g disk pieces rbytes rlens) (ask_marks g marks.now)) }
{
    ask_image(g, disk, pieces, rbytes, rlens)?;
    ask_marks(g, marks)
}

// The record of a choice, or question 7 where the selected interval doesn't parse.
fn record_chosen(
    g: Geometry,
    c: Choice,
    disk: &[u8],
    pieces: &mut [u8],
    rbytes: &mut [u8],
    rlens: &mut [u16],
) -> Result<Held, Refused>
    requires { Fetches g c.superblock (length disk.now) (length pieces.old) (length rbytes.old) (length rlens.old) }
    ensures value { result ≡ held_in g disk.now c }
    ensures lent_after { after pieces rbytes rlens ≡ found_lent g disk.now c.superblock (pieces_after g disk.now c.superblock pieces.old) (before pieces rbytes rlens) }
{
    let found = of_slot(fetch(g, c.superblock, disk, pieces, rbytes, rlens), 0)?;
    Ok(Held {
        superblock: c.superblock,
        which: c.which,
        entries: found.entries,
        bytes: found.bytes,
    })
}

// The record of a disk: what a load of it comes to. The entries of the selected superblock's interval lie in replay memory, bodies back to
// back and lengths in order. Where the interval goes round the ring's end its blocks lie in `pieces`, in order, also where they don't parse.
pub fn record(
    g: Geometry,
    disk: &[u8],
    pieces: &mut [u8],
    rbytes: &mut [u8],
    rlens: &mut [u16],
) -> Result<Held, Refused>
    ensures value { result ≡ record_of g disk.now (unmarked g disk.now (before pieces rbytes rlens)) }
    ensures lent_after { after pieces rbytes rlens ≡ record_lent g disk.now (unmarked g disk.now (before pieces rbytes rlens)) (before pieces rbytes rlens) }
{
    let lent = ask_image(g, disk.len(), pieces.len(), rbytes.len(), rlens.len());
    let c = choose(g, disk, lent)?;
    record_chosen(g, c, disk, pieces, rbytes, rlens)
}

// The same by a caller who knows which blocks can be read, N marks: question 6 where a block of the selected interval can't.
pub fn record_marked(
    g: Geometry,
    disk: &[u8],
    marks: &[u8],
    pieces: &mut [u8],
    rbytes: &mut [u8],
    rlens: &mut [u16],
) -> Result<Held, Refused>
    ensures value { result ≡ record_of g disk.now (marked g disk.now marks.now (before pieces rbytes rlens)) }
    ensures lent_after { after pieces rbytes rlens ≡ record_lent g disk.now (marked g disk.now marks.now (before pieces rbytes rlens)) (before pieces rbytes rlens) }
{
    let lent = ask_marked(
        g,
        disk.len(),
        marks,
        pieces.len(),
        rbytes.len(),
        rlens.len(),
    );
    let c = choose(g, disk, lent)?;
    let v = JournalInterval {
        start: c.superblock.journalStart,
        len: c.superblock.journalLen,
    };
    of_slot(ask_readable(v, marks), 0)?;
    record_chosen(g, c, disk, pieces, rbytes, rlens)
}
