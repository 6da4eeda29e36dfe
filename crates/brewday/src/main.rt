// A brew day at N = 8, T = 4,096 (document 01): a line of input is a command, and a row of output says what it came to. A line that isn't a
// command says so with its number, alters nothing, and the day goes on.
#![tactic(auto)]

mod command;
mod day;
mod lent;
mod row;

use day::Day;
use layout::Location;
use lent::Memory;
use requests::Slots;
use std::io::Read;
use store::Store;
use streams::read_full;
use superblock::Superblock;

// Both slots: counter 0, an empty journal from block 0, table 1 with length 4,096.
fn first_store() -> Store {
    let loc = Location {
        addr: 40960,
        len: 4096,
    };
    let s = Superblock {
        counter: 0,
        journalStart: 0,
        journalLen: 0,
        indirectionTableLoc: loc,
    };
    let slots = Slots {
        first: Some(s),
        second: Some(s),
    };
    Store::initial(slots)
}

// Each turn takes one line; there are no more lines than bytes.
fn run(rt: &impl Print, mut d: Day, input: &[u8], memory: &mut Memory) {
    for _ in 0..input.len() {
        d = day::turn(rt, d, input, memory);
    }
}

// Is there more on standard input than was read?
fn is_longer(stdin: &mut impl Read, read: usize) -> bool {
    if read < 65536 {
        return false;
    }
    let mut one = [0u8; 1];
    let more = read_full(stdin, &mut one);
    0 < more
}

fn main(rt: HostRuntime) {
    let mut input = [0u8; 65536];
    let mut memory = Memory::zeros();
    let n = read_full(&mut rt.stdin(), &mut input);
    let more = is_longer(&mut rt.stdin(), n);
    if more {
        let _ = println!(rt; "the input is longer than 65536 bytes: no line of it was run");
        return;
    }
    let _ = println!(rt; "n r k c s l w");
    let d = Day {
        store: first_store(),
        at: 0,
        row: 0,
    };
    run(&rt, d, &input[..n], &mut memory);
}
