// The first line: a disk without requests.
use super::figures;
use super::lent::MOST_BLOCKS;
use layout::{Geometry, Location};
use requests::Slots;
use superblock::Superblock;

#[derive(Clone, Copy)]
pub(crate) struct First {
    pub geometry: Geometry,
    pub slots: Slots,
}

fn slot(counter: u64, start: u64, len: u64, addr: u64, size: u64) -> Option<Superblock> {
    let loc = Location { addr, len: size };
    Some(Superblock {
        counter,
        journalStart: start,
        journalLen: len,
        indirectionTableLoc: loc,
    })
}

fn has_disk(g: Geometry) -> bool {
    g.ask().is_ok() && g.blocks <= MOST_BLOCKS as u64
}

// `disk N T`, then the five numbers of each superblock. Whether these are well formed is the store's to ask.
pub(crate) fn parse(line: &[u8]) -> Option<First> {
    let w = words::next_word(line, 0);
    let named = words::is(line, w, b"disk");
    let n = figures::read_numbers(line, w.to)?;
    let v = n.values;
    let geometry = Geometry {
        blocks: v[0],
        table: v[1],
    };
    let first = slot(v[2], v[3], v[4], v[5], v[6]);
    let second = slot(v[7], v[8], v[9], v[10], v[11]);
    if named && n.count == v.len() && has_disk(geometry) {
        let slots = Slots { first, second };
        return Some(First { geometry, slots });
    }
    None
}
