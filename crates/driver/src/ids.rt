// The ids under which something waits at a disk, and the least of the others.
ghost use Rattle.std.specs.Prelude.{◌≡◌};
ghost use Rattle.driver.specs.Ids.{writes_id, writes_hold, holds, least_new};

use disk::Disk;
use requests::{SuperblockWrite, SuperblockWrites};

// The places of a disk's tables: 16 for the reads of each slot, 16 journal reads, 16 journal writes, a write for each slot.
const PLACES: u64 = 66;

fn writes_id(w: Option<SuperblockWrite>, id: u64) -> bool
    ensures { result ≡ writes_id w id }
{
    match w {
        Some(x) => x.id == id,
        None => false,
    }
}

fn writes_hold(w: SuperblockWrites, id: u64) -> bool
    ensures { result ≡ writes_hold w id }
{
    let first = w.first;
    let second = w.second;
    let a = writes_id(first, id);
    let b = writes_id(second, id);
    a | b
}

// Does a read or a write wait at the disk under this id?
fn holds(d: Disk, id: u64) -> bool
    ensures { result ≡ holds d id }
{
    let reads = d.superblockReads;
    let first = reads.first;
    let second = reads.second;
    let pages = d.journalReads;
    let writes = d.journalWrites;
    let commits = d.superblockWrites;
    let a = first.has(id);
    let b = second.has(id);
    let c = pages.has(id);
    let e = writes.has(id);
    let f = writes_hold(commits, id);
    a | b | c | e | f
}

// No more ids are held than there are places, so one of the first 67 numbers is new.
#[tactic(auto, using(laws::specs::Least::least_hit, laws::specs::Least::least_turn, laws::specs::Least::least_end))]
pub fn least_new(d: Disk) -> u64
    ensures { result ≡ least_new d }
{
    for i in 0..PLACES {
        if !holds(d, i) {
            return i;
        }
    }
    PLACES
}
