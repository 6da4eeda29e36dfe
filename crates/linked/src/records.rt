// The record of a disk: what a load of it comes to.
ghost use Rattle.std.specs.Prelude.{◌≡◌};
ghost use Rattle.image.specs.Image.{before, after};
ghost use Rattle.linked.specs.Records.{record_by, asked_by, lent_by, record_marked, asked_marked, lent_marked, number_of, slot_of, which_after, found_after, size_after};

use image::{Held, Refused, record, record_marked};
use layout::Geometry;

// An answer as numbers: `which`, `found` and `size` where nothing is refused, `slot` always.
fn tell(
    r: Result<Held, Refused>,
    which: &mut u64,
    found: &mut u64,
    size: &mut u64,
    slot: &mut u64,
) -> u8
    ensures value { result ≡ number_of r }
    ensures which_after { which.new ≡ which_after r which.old }
    ensures found_after { found.new ≡ found_after r found.old }
    ensures size_after { size.new ≡ size_after r size.old }
    ensures slot_after { slot.new ≡ slot_of r }
{
    match r {
        Ok(record) => {
            *which = record.which;
            *found = record.entries;
            *size = record.bytes;
            *slot = 0;
            0
        },
        Err(refused) => {
            let no = refused.no;
            *slot = refused.slot as u64;
            no.number()
        },
    }
}

// The record of a disk of N blocks: the entries of the selected superblock's interval into replay memory, and the superblock's slot (0 the
// first, 1 the second), how many entries, how many bytes. An interval that goes round the ring's end lies in `pieces` then, also after a 7.
#[unsafe(no_mangle)]
pub extern "C" fn wokujani_record(
    n: u64,
    t: u64,
    disk: &[u8],
    pieces: &mut [u8],
    rbytes: &mut [u8],
    rlens: &mut [u16],
    which: &mut u64,
    found: &mut u64,
    size: &mut u64,
    slot: &mut u64,
) -> u8
    ensures value { result ≡ number_of (record_by n t disk.now (before pieces rbytes rlens)) }
    ensures number { result ≡ (asked_by n t disk.now (before pieces rbytes rlens)).number }
    ensures lent_after { after pieces rbytes rlens ≡ lent_by n t disk.now (before pieces rbytes rlens) }
    ensures which_after { which.new ≡ which_after (record_by n t disk.now (before pieces rbytes rlens)) which.old }
    ensures found_after { found.new ≡ found_after (record_by n t disk.now (before pieces rbytes rlens)) found.old }
    ensures size_after { size.new ≡ size_after (record_by n t disk.now (before pieces rbytes rlens)) size.old }
    ensures slot_after { slot.new ≡ slot_of (record_by n t disk.now (before pieces rbytes rlens)) }
{
    let g = Geometry {
        blocks: n,
        table: t,
    };
    let r = record(g, disk, pieces, rbytes, rlens);
    tell(r, which, found, size, slot)
}

// The same by a caller who knows which blocks can be read, N marks: 6 where a block of the selected interval can't.
#[unsafe(no_mangle)]
pub extern "C" fn wokujani_record_marked(
    n: u64,
    t: u64,
    disk: &[u8],
    marks: &[u8],
    pieces: &mut [u8],
    rbytes: &mut [u8],
    rlens: &mut [u16],
    which: &mut u64,
    found: &mut u64,
    size: &mut u64,
    slot: &mut u64,
) -> u8
    ensures value { result ≡ number_of (record_marked n t disk.now marks.now (before pieces rbytes rlens)) }
    ensures number { result ≡ (asked_marked n t disk.now marks.now (before pieces rbytes rlens)).number }
    ensures lent_after { after pieces rbytes rlens ≡ lent_marked n t disk.now marks.now (before pieces rbytes rlens) }
    ensures which_after { which.new ≡ which_after (record_marked n t disk.now marks.now (before pieces rbytes rlens)) which.old }
    ensures found_after { found.new ≡ found_after (record_marked n t disk.now marks.now (before pieces rbytes rlens)) found.old }
    ensures size_after { size.new ≡ size_after (record_marked n t disk.now marks.now (before pieces rbytes rlens)) size.old }
    ensures slot_after { slot.new ≡ slot_of (record_marked n t disk.now marks.now (before pieces rbytes rlens)) }
{
    let g = Geometry {
        blocks: n,
        table: t,
    };
    let r = record_marked(g, disk, marks, pieces, rbytes, rlens);
    tell(r, which, found, size, slot)
}
