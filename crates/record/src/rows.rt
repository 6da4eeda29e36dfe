// Rows are gathered in lent text, and written when a row more might not fit.
use std::io::Stdout;
use text::{put, put_decimal};

// So many bytes are gathered for `out`; `ok`: no write has failed.
#[derive(Clone, Copy)]
pub(crate) struct Rows {
    pub at: usize,
    pub ok: bool,
    pub out: Stdout,
}

// More than the longest row has: an entry of 255 bytes, two digits each, and two numbers.
const ROW_SIZE: usize = 1024;

pub(crate) fn none(out: Stdout) -> Rows {
    Rows {
        at: 0,
        ok: true,
        out,
    }
}

// What is gathered is written; after a write that failed nothing is.
pub(crate) fn flush(r: Rows, text: &[u8]) -> Rows {
    let out = r.out;
    if !r.ok {
        return Rows {
            at: 0,
            ok: false,
            out,
        };
    }
    let n = r.at.min(text.len());
    let ok = out.write_all(&text[0..n]).is_ok();
    Rows { at: 0, ok, out }
}

// Room for one row more.
pub(crate) fn room(r: Rows, text: &[u8]) -> Rows {
    let n = r.at.min(text.len());
    if text.len() - n < ROW_SIZE {
        return flush(r, text);
    }
    r
}

// A blank and a number.
pub(crate) fn put_number(n: u64, text: &mut [u8], at: usize) -> usize {
    let a = put(b" ", text, at);
    put_decimal(n, text, a)
}

// The row's end, behind what is gathered from `at` on.
pub(crate) fn end(r: Rows, text: &mut [u8], at: usize) -> Rows {
    let a = put(b"\n", text, at);
    Rows { at: a, ..r }
}

// A word and a number: `refused 12`.
pub(crate) fn put_one(word: &[u8], a: u64, text: &mut [u8], r: Rows) -> Rows {
    let s = room(r, text);
    let b = put(word, text, s.at);
    let c = put_number(a, text, b);
    end(s, text, c)
}

// A word and two numbers: `front 6 2`.
pub(crate) fn put_two(word: &[u8], a: u64, b: u64, text: &mut [u8], r: Rows) -> Rows {
    let s = room(r, text);
    let c = put(word, text, s.at);
    let d = put_number(a, text, c);
    let e = put_number(b, text, d);
    end(s, text, e)
}
