// Questions 1 and 2's looks at lent memory.
ghost use Rattle.std.specs.Prelude.{◌≡◌};
ghost use Rattle.laws.specs.Choice.{unless};
ghost use Rattle.journal.specs.Memory.{ask_journal};
ghost use Rattle.memory.specs.Limits.{store_limits};
ghost use Rattle.memory.specs.Given.{memory, count_of};
ghost use Rattle.memory.specs.Pending.{first_of, ask_frozen};
ghost use Rattle.memory.specs.Replay.{ask_replay, left_of};
ghost use Rattle.linked.specs.Numbers.{geometry_of, counts};

use journal::ask_journal;
use layout::Geometry;
use memory::{Count, Limits, count_left, count_pending};
use refusal::number_of;

// Question 1 of a journal: N and T within their bounds, N blocks lent, N marks lent, each 0 or 1.
#[unsafe(no_mangle)]
pub extern "C" fn wokujani_ask_journal(n: u64, t: u64, journal: &[u8], marks: &[u8]) -> u8
    ensures { result ≡ ask_journal (geometry_of n t) journal.now marks.now }
{
    let g = Geometry {
        blocks: n,
        table: t,
    };
    number_of(&ask_journal(g, journal, marks))
}

// Questions 1 and 2 of pending memory that holds n entries, the first of them frozen; and the bytes of the frozen ones, and of all.
#[unsafe(no_mangle)]
pub extern "C" fn wokujani_count_pending(
    bytes: &[u8],
    lens: &[u16],
    n: u64,
    frozen: u64,
    first: &mut u64,
    size: &mut u64,
) -> u8
    ensures value { result ≡ ask_frozen store_limits (memory bytes.now lens.now n) frozen }
    ensures first_after { first.new ≡ unless (ask_frozen store_limits (memory bytes.now lens.now n) frozen) first.old (first_of (memory bytes.now lens.now n) frozen).bytes }
    ensures size_after { size.new ≡ unless (ask_frozen store_limits (memory bytes.now lens.now n) frozen) size.old (count_of (memory bytes.now lens.now n)).bytes }
{
    let limits = Limits {
        entries: Limits::MOST_ENTRIES,
        bytes: Limits::MOST_BYTES,
    };
    match count_pending(limits, bytes, lens, n, frozen) {
        Ok(pending) => {
            let front = pending.frozen;
            let all = pending.all;
            *first = front.bytes;
            *size = all.bytes;
            0
        },
        Err(no) => no.number(),
    }
}

// Questions 1 and 2 of replay memory that holds n entries, of which the first `entries`, of `bytes` bytes, are taken; and what is left: how
// many, and their bytes.
#[unsafe(no_mangle)]
pub extern "C" fn wokujani_count_left(
    blocks: u64,
    rbytes: &[u8],
    rlens: &[u16],
    n: u64,
    entries: u64,
    bytes: u64,
    found: &mut u64,
    size: &mut u64,
) -> u8
    ensures value { result ≡ ask_replay blocks (memory rbytes.now rlens.now n) (counts entries bytes) }
    ensures found_after { found.new ≡ unless (ask_replay blocks (memory rbytes.now rlens.now n) (counts entries bytes)) found.old (left_of (memory rbytes.now rlens.now n) (counts entries bytes)).entries }
    ensures size_after { size.new ≡ unless (ask_replay blocks (memory rbytes.now rlens.now n) (counts entries bytes)) size.old (left_of (memory rbytes.now rlens.now n) (counts entries bytes)).bytes }
{
    let taken = Count { entries, bytes };
    match count_left(blocks, rbytes, rlens, n, taken) {
        Ok(left) => {
            *found = left.entries;
            *size = left.bytes;
            0
        },
        Err(no) => no.number(),
    }
}
