// A row of output, made in a buffer and written at once; a dash where the kind lacks the column.
use machine::{Kind, Machine};
use ready::Ready;
use refusal::{Refusal, number_of};
use superblock::{DiskOp, Superblock};
use tables::SyncTable;
use text::{put, put_decimal};

fn column(out: &mut [u8], at: usize, n: u64) -> usize {
    let next = put(b" ", out, at);
    put_decimal(n, out, next)
}

fn superblock(out: &mut [u8], at: usize, s: Superblock) -> usize {
    let a = column(out, at, s.counter);
    let b = column(out, a, s.journalStart);
    column(out, b, s.journalLen)
}

// Written, frozen, frozen position, frozen and in-memory entries, outstanding journal writes, replay entries left.
fn working(out: &mut [u8], at: usize, r: Ready) -> usize {
    let f = r.frozen;
    let e = r.entries;
    let w = r.writes;
    let s = r.superblock;
    let a = superblock(out, at, s);
    let b = column(out, a, r.writtenJournalLen);
    let c = column(out, b, f.isFrozen as u64);
    let d = column(out, c, f.frozenJournalPosition);
    let p = column(out, d, e.frozen);
    let m = column(out, p, e.pending.saturating_sub(e.frozen));
    let o = column(out, m, w.count as u64);
    column(out, o, e.replay_left())
}

fn state(out: &mut [u8], at: usize, m: Machine) -> usize {
    let kind = m.kind;
    match kind {
        Kind::LoadingSuperblock => put(b" S - - - - - - - - - -", out, at),
        Kind::LoadingOther => {
            let other = m.other;
            let s = other.superblock;
            let a = put(b" O", out, at);
            let b = superblock(out, a, s);
            put(b" - - - - - - -", out, b)
        },
        Kind::Ready => {
            let ready = m.ready;
            let a = put(b" R", out, at);
            working(out, a, ready)
        },
    }
}

// How many of the first `count` states are this one.
fn count_state(states: &[u8], count: usize, state: u8) -> u64 {
    states.iter().take(count).filter(|s| **s == state).count() as u64
}

fn syncs(out: &mut [u8], at: usize, t: SyncTable) -> usize {
    let states = t.states;
    let q1 = count_state(&states, t.count, 1);
    let q2 = count_state(&states, t.count, 2);
    let q3 = count_state(&states, t.count, 3);
    let a = column(out, at, q1);
    let b = column(out, a, q2);
    column(out, b, q3)
}

// A row that can't be written is lost.
fn write_out(rt: &HostRuntime, row: &[u8], end: usize) {
    let k = end.min(row.len());
    let _ = rt.stdout().write_all(&row[0..k]);
}

// The longest row: 17 columns of up to 20 digits.
pub(crate) fn print(rt: &HostRuntime, n: u64, a: Result<DiskOp, Refusal>, m: Machine, h: u64) {
    let mut row = [0u8; 512];
    let t = m.sync;
    let q = number_of(&a) as u64;
    let b = put_decimal(n, &mut row, 0);
    let c = column(&mut row, b, q);
    let d = state(&mut row, c, m);
    let e = syncs(&mut row, d, t);
    let f = column(&mut row, e, h);
    let end = put(b"\n", &mut row, f);
    write_out(rt, &row, end);
}

pub(crate) fn header(rt: &HostRuntime) {
    let row = b"n r k c s l w z f p m o y q1 q2 q3 h\n";
    write_out(rt, row, row.len());
}

pub(crate) fn not_a_step(rt: &HostRuntime, n: u64) {
    let mut row = [0u8; 64];
    let a = put(b"line ", &mut row, 0);
    let b = put_decimal(n, &mut row, a);
    let end = put(b" is not a step\n", &mut row, b);
    write_out(rt, &row, end);
}

pub(crate) fn not_a_disk(rt: &HostRuntime) {
    let row = b"line 0 is not a disk\n";
    write_out(rt, row, row.len());
}
