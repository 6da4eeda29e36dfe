// The rows of the two slots, of the one that is selected, and of its interval's parts.
use super::rows;
use super::rows::{Rows, put_number};
use interval::JournalInterval;
use layout::Geometry;
use refusal::{Refusal, number_of};
use sector::{Selection, select};
use superblock::{Superblock, select_superblock};
use text::put;

// What the two sectors are read as.
#[derive(Clone, Copy)]
pub(crate) struct Sectors {
    pub first: Result<Superblock, Refusal>,
    pub second: Result<Superblock, Refusal>,
}

// 2 where the superblock isn't well formed, and its five numbers.
fn put_superblock(g: Geometry, s: Superblock, text: &mut [u8], at: usize) -> usize {
    let loc = s.indirectionTableLoc;
    let a = put_number(number_of(&ask_superblock(g, s)) as u64, text, at);
    let b = put_number(s.counter, text, a);
    let c = put_number(s.journalStart, text, b);
    let d = put_number(s.journalLen, text, c);
    let e = put_number(loc.addr, text, d);
    put_number(loc.len, text, e)
}

// Question 2 of a superblock.
fn ask_superblock(g: Geometry, s: Superblock) -> Result<(), Refusal> {
    if s.well_formed(g) {
        return Ok(());
    }
    Err(Refusal::State)
}

fn put_read(g: Geometry, r: Result<Superblock, Refusal>, text: &mut [u8], at: usize) -> usize {
    match r {
        Ok(s) => put_superblock(g, s, text, at),
        Err(no) => put_number(no.number() as u64, text, at),
    }
}

// `slot 1 0 7 6 5 40960 4096`, or `slot 1 12`.
pub(crate) fn put_slot(
    slot: u64,
    g: Geometry,
    read: Result<Superblock, Refusal>,
    text: &mut [u8],
    r: Rows,
) -> Rows {
    let s = rows::room(r, text);
    let a = put(b"slot", text, s.at);
    let b = put_number(slot, text, a);
    let c = put_read(g, read, text, b);
    rows::end(s, text, c)
}

pub(crate) fn put_slots(g: Geometry, sectors: Sectors, text: &mut [u8], r: Rows) -> Rows {
    let first = sectors.first;
    let second = sectors.second;
    let a = put_slot(1, g, first, text, r);
    put_slot(2, g, second, text, a)
}

// Of two sectors that are read: which is selected, and why, in the words of docs/SECTORS.md.
fn put_selection(s: Selection, text: &mut [u8], at: usize) -> usize {
    match s {
        Selection::SecondFollows => put(b"selected 2: its counter follows slot 1's", text, at),
        Selection::EqualCounters => put(b"selected 1: the counters are equal", text, at),
        Selection::FirstFollows => put(b"selected 1: its counter follows slot 2's", text, at),
        _ => put(b"selected 1: neither counter follows the other", text, at),
    }
}

fn put_part(word: &[u8], part: Option<JournalInterval>, text: &mut [u8], r: Rows) -> Rows {
    match part {
        Some(v) => rows::put_two(word, v.start, v.len, text, r),
        None => r,
    }
}

fn put_parts(g: Geometry, s: Superblock, text: &mut [u8], r: Rows) -> Rows {
    let front = s.front(g);
    let back = s.back(g);
    let a = put_part(b"front", front, text, r);
    put_part(b"back", back, text, a)
}

// The selected slot and its parts, where both sectors are read.
pub(crate) fn put_selected(g: Geometry, sectors: Sectors, text: &mut [u8], r: Rows) -> Rows {
    let first = sectors.first;
    let second = sectors.second;
    let Ok(s) = first else {
        return r;
    };
    let Ok(t) = second else {
        return r;
    };
    let room = rows::room(r, text);
    let which = select(first, second);
    let a = put_selection(which, text, room.at);
    let b = rows::end(room, text, a);
    let chosen = select_superblock(s, t);
    put_parts(g, chosen, text, b)
}
