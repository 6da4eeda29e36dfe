// The rows of ranges, from the interval's bytes, each with its entries behind it.
use super::entries::{Walk, put_entries};
use super::rows;
use super::rows::{Rows, put_number};
use journal::bytes_of;
use layout::{Geometry, journal_pos_add};
use range::BLOCK_SIZE;
use reader::{Contents, range_in_front};
use text::put;

// `range 6 1 2`.
fn put_range(block: u64, c: Contents, text: &mut [u8], r: Rows) -> Rows {
    let s = rows::room(r, text);
    let a = put(b"range", text, s.at);
    let b = put_number(block, text, a);
    let d = put_number(c.blocks as u64, text, b);
    let e = put_number(c.entries as u64, text, d);
    rows::end(s, text, e)
}

// The block behind so many, going round.
fn block_after(g: Geometry, block: u64, blocks: u64) -> u64 {
    journal_pos_add(g, block, blocks).unwrap_or(block)
}

fn place_after(place: usize, blocks: u64, end: usize) -> usize {
    let from = place.min(end);
    let size = bytes_of(blocks, end - from);
    from + size
}

// The range with these contents, and its entries.
fn show_range(
    w: Walk,
    g: Geometry,
    c: Contents,
    end: usize,
    rbytes: &[u8],
    rlens: &[u16],
    text: &mut [u8],
) -> Walk {
    let r = w.rows;
    let blocks = c.blocks as u64;
    let block = block_after(g, w.block, blocks);
    let place = place_after(w.place, blocks, end);
    let next = put_range(w.block, c, text, r);
    let from = Walk {
        rows: next,
        block,
        place,
        ..w
    };
    put_entries(from, c.entries, rbytes, rlens, text)
}

fn turn(w: Walk, g: Geometry, s: &[u8], rbytes: &[u8], rlens: &[u16], text: &mut [u8]) -> Walk {
    let at = w.place.min(s.len());
    let f = range_in_front(&s[at..]);
    match f {
        Some(c) => show_range(w, g, c, s.len(), rbytes, rlens, text),
        None => w,
    }
}

// All ranges of an interval's bytes that begin at this block: each has a block at least.
pub(crate) fn put_ranges(
    start: u64,
    g: Geometry,
    s: &[u8],
    rbytes: &[u8],
    rlens: &[u16],
    text: &mut [u8],
    r: Rows,
) -> Rows {
    let mut w = Walk {
        rows: r,
        block: start,
        place: 0,
        entry: 0,
        body: 0,
    };
    for _ in 0..s.len() / BLOCK_SIZE {
        w = turn(w, g, s, rbytes, rlens, text);
    }
    w.rows
}
