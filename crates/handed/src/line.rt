// A line: the selected interval, and the journal writes in flight.
use interval::JournalInterval;
use tables::{IdTable, IntervalTable};
use words::Word;

// The writes under the ids 1, 2, 3 .., as the disk holds them, and their ids, as the machine awaits them.
#[derive(Clone, Copy)]
pub(crate) struct Handed {
    pub selected: JournalInterval,
    pub held: IntervalTable,
    pub awaited: IdTable,
}

const MOST_WRITES: u64 = 16;

// An interval, and the place behind its two words.
#[derive(Clone, Copy)]
struct Pair {
    interval: JournalInterval,
    to: usize,
}

// The interval of a word and the next one.
fn read_pair(line: &[u8], first: Word) -> Option<Pair> {
    let start = words::decimal(line, first)?;
    let second = words::next_word(line, first.to);
    let len = words::decimal(line, second)?;
    Some(Pair {
        interval: JournalInterval { start, len },
        to: second.to,
    })
}

impl Handed {
    fn new(selected: JournalInterval) -> Handed {
        Handed {
            selected,
            held: IntervalTable::empty(),
            awaited: IdTable::empty(),
        }
    }

    // One more write in flight.
    fn add(&mut self, id: u64, v: JournalInterval) {
        self.held = self.held.add(id, v);
        self.awaited = self.awaited.add(id);
    }
}

// The store of a line, if it is one. The tables have room for 16 writes; a seventeenth makes the line none.
pub(crate) fn read(line: &[u8]) -> Option<Handed> {
    let selected = read_pair(line, words::next_word(line, 0))?;
    let mut handed = Handed::new(selected.interval);
    let mut at = selected.to;
    for id in 1..=MOST_WRITES {
        let w = words::next_word(line, at);
        if w.none() {
            return Some(handed);
        }
        let write = read_pair(line, w)?;
        at = write.to;
        handed.add(id, write.interval);
    }
    if words::next_word(line, at).none() {
        return Some(handed);
    }
    None
}
