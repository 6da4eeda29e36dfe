// A row of output: line, refusal or 0, kind, counter, start, len, written; a dash where the kind lacks it.
use machine::{Kind, Machine};
use refusal::{Refusal, number_of};
use superblock::{DiskOp, Superblock};

fn column(rt: &impl Print, n: u64) {
    let _ = print!(rt; " {n}");
}

fn superblock(rt: &impl Print, s: Superblock) {
    column(rt, s.counter);
    column(rt, s.journalStart);
    column(rt, s.journalLen);
}

fn state(rt: &impl Print, m: Machine) {
    let kind = m.kind;
    match kind {
        Kind::LoadingSuperblock => {
            let _ = println!(rt; " S - - - -");
        }
        Kind::LoadingOther => {
            let _ = print!(rt; " O");
            let other = m.other;
            superblock(rt, other.superblock);
            let _ = println!(rt; " -");
        }
        Kind::Ready => {
            let _ = print!(rt; " R");
            let ready = m.ready;
            superblock(rt, ready.superblock);
            column(rt, ready.writtenJournalLen);
            let _ = println!(rt);
        }
    }
}

pub(crate) fn print(rt: &impl Print, row: u64, a: Result<DiskOp, Refusal>, m: Machine) {
    let _ = print!(rt; "{row}");
    column(rt, number_of(&a) as u64);
    state(rt, m);
}

pub(crate) fn not_a_command(rt: &impl Print, row: u64) {
    let _ = println!(rt; "line {row} is not a command");
}
