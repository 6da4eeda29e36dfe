// The rows of entries, from replay memory.
use super::rows;
use super::rows::{Rows, put_number};
use text::{put, put_hex};

// How far the rows came: the next range's first block and its place in the interval's bytes, the next entry and where its body begins in
// replay memory.
#[derive(Clone, Copy)]
pub(crate) struct Walk {
    pub rows: Rows,
    pub block: u64,
    pub place: usize,
    pub entry: usize,
    pub body: usize,
}

// `entry 1 5 68656c6c6f`.
fn put_entry(number: u64, body: &[u8], text: &mut [u8], r: Rows) -> Rows {
    let s = rows::room(r, text);
    let a = put(b"entry", text, s.at);
    let b = put_number(number, text, a);
    let c = put_number(body.len() as u64, text, b);
    let d = put(b" ", text, c);
    let e = put_hex(body, text, d);
    rows::end(s, text, e)
}

// The next entry.
fn turn(w: Walk, rbytes: &[u8], rlens: &[u16], text: &mut [u8]) -> Walk {
    let i = w.entry;
    let r = w.rows;
    if rlens.len() <= i {
        return w;
    }
    let from = w.body.min(rbytes.len());
    let size = (rlens[i] as usize).min(rbytes.len() - from);
    let to = from + size;
    let next = put_entry((i + 1) as u64, &rbytes[from..to], text, r);
    Walk {
        rows: next,
        entry: i + 1,
        body: to,
        ..w
    }
}

// So many entries more.
pub(crate) fn put_entries(
    mut w: Walk,
    count: usize,
    rbytes: &[u8],
    rlens: &[u16],
    text: &mut [u8],
) -> Walk {
    for _ in 0..count {
        w = turn(w, rbytes, rlens, text);
    }
    w
}
