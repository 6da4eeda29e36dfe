// The three rows: what each slot says, and which is selected.
use refusal::Refusal;
use sector::{Selection, select};
use superblock::Superblock;
use text::{put, put_decimal};

fn put_number(n: u64, text: &mut [u8], at: usize) -> usize {
    let a = put(b" ", text, at);
    put_decimal(n, text, a)
}

fn put_superblock(s: Superblock, text: &mut [u8], at: usize) -> usize {
    let loc = s.indirectionTableLoc;
    let a = put_number(0, text, at);
    let b = put_number(s.counter, text, a);
    let c = put_number(s.journalStart, text, b);
    let d = put_number(s.journalLen, text, c);
    let e = put_number(loc.addr, text, d);
    put_number(loc.len, text, e)
}

fn put_read(r: Result<Superblock, Refusal>, text: &mut [u8], at: usize) -> usize {
    match r {
        Ok(s) => put_superblock(s, text, at),
        Err(no) => put_number(no.number() as u64, text, at),
    }
}

// `slot 1 0 7 6 5 40960 4096`, or `slot 1 12`.
fn put_slot(slot: u64, r: Result<Superblock, Refusal>, text: &mut [u8], at: usize) -> usize {
    let a = put(b"slot", text, at);
    let b = put_number(slot, text, a);
    let c = put_read(r, text, b);
    put(b"\n", text, c)
}

fn put_selection(s: Selection, text: &mut [u8], at: usize) -> usize {
    match s {
        Selection::SecondFollows => put(b"selected 2: its counter follows slot 1's\n", text, at),
        Selection::EqualCounters => put(b"selected 1: the counters are equal\n", text, at),
        Selection::FirstFollows => put(b"selected 1: its counter follows slot 2's\n", text, at),
        Selection::NeitherFollows => put(
            b"selected 1: neither counter follows the other\n",
            text,
            at,
        ),
        Selection::FirstRefused => put(b"selected none: slot 1 is refused\n", text, at),
        Selection::SecondRefused => put(b"selected none: slot 2 is refused\n", text, at),
        Selection::BothRefused => put(b"selected none: both slots are refused\n", text, at),
    }
}

pub(crate) fn put_rows(
    first: Result<Superblock, Refusal>,
    second: Result<Superblock, Refusal>,
    text: &mut [u8],
) -> usize {
    let a = put_slot(1, first, text, 0);
    let b = put_slot(2, second, text, a);
    let s = select(first, second);
    put_selection(s, text, b)
}
