// The two parts of an interval of the ring: up to its end, and from block 0 on.
ghost use Rattle.std.specs.Prelude.{◌≡◌};
ghost use Rattle.laws.specs.Choice.{unless};
ghost use Rattle.interval.specs.Interval.{ask_interval, interval};
ghost use Rattle.linked.specs.Numbers.{geometry_of};
ghost use Rattle.linked.specs.Parts.{first_of, blocks_of, front_of, back_of};

use interval::JournalInterval;
use layout::Geometry;

fn tell_part(part: Option<JournalInterval>, first: &mut u64, blocks: &mut u64)
    ensures first_after { first.new ≡ first_of part }
    ensures blocks_after { blocks.new ≡ blocks_of part }
{
    match part {
        Some(v) => {
            *first = v.start;
            *blocks = v.len;
        },
        None => {
            *first = 0;
            *blocks = 0;
        },
    }
}

// The front of an interval: its first block and how many blocks; 0 and 0 where it has none.
#[unsafe(no_mangle)]
pub extern "C" fn wokujani_front(
    n: u64,
    t: u64,
    start: u64,
    len: u64,
    first: &mut u64,
    blocks: &mut u64,
) -> u8
    ensures value { result ≡ ask_interval (geometry_of n t) (interval start len) }
    ensures first_after { first.new ≡ unless (ask_interval (geometry_of n t) (interval start len)) first.old (first_of (front_of n t start len)) }
    ensures blocks_after { blocks.new ≡ unless (ask_interval (geometry_of n t) (interval start len)) blocks.old (blocks_of (front_of n t start len)) }
{
    let g = Geometry {
        blocks: n,
        table: t,
    };
    let v = JournalInterval { start, len };
    if let Err(no) = v.ask(g) {
        return no.number();
    }
    let part = v.front(g);
    tell_part(part, first, blocks);
    0
}

// The back of an interval: from block 0 on, where it goes round the ring's end; else 0 and 0.
#[unsafe(no_mangle)]
pub extern "C" fn wokujani_back(
    n: u64,
    t: u64,
    start: u64,
    len: u64,
    first: &mut u64,
    blocks: &mut u64,
) -> u8
    ensures value { result ≡ ask_interval (geometry_of n t) (interval start len) }
    ensures first_after { first.new ≡ unless (ask_interval (geometry_of n t) (interval start len)) first.old (first_of (back_of n t start len)) }
    ensures blocks_after { blocks.new ≡ unless (ask_interval (geometry_of n t) (interval start len)) blocks.old (blocks_of (back_of n t start len)) }
{
    let g = Geometry {
        blocks: n,
        table: t,
    };
    let v = JournalInterval { start, len };
    if let Err(no) = v.ask(g) {
        return no.number();
    }
    let part = v.back(g);
    tell_part(part, first, blocks);
    0
}
