// Works through the lines of document 01's brew day that have no star, at N = 8 and T = 4,096, and prints each with what it found.
#![tactic(auto)]

use layout::{Geometry, Location};
use refusal::Refusal;

fn day() -> Geometry {
    Geometry {
        blocks: 8,
        table: 4096,
    }
}

fn print_number(rt: &impl Print, n: u64) {
    let _ = println!(rt; "{n}");
}

fn print_refusal(rt: &impl Print, no: Refusal) {
    let q = no.number();
    let _ = println!(rt; "refused {q}");
}

fn print_answer(rt: &impl Print, answer: Result<u64, Refusal>) {
    match answer {
        Ok(n) => print_number(rt, n),
        Err(no) => print_refusal(rt, no),
    }
}

fn print_decision(rt: &impl Print, decision: Result<bool, Refusal>) {
    match decision {
        Ok(b) => {
            let _ = if b {
                println!(rt; "valid")
            } else {
                println!(rt; "not valid")
            };
        }
        Err(no) => print_refusal(rt, no),
    }
}

// Is a table of this length at table 1's address valid?
fn table_length(rt: &impl Print, len: u64) {
    let loc = Location { addr: 40960, len };
    let _ = print!(rt; "table 1 with length {len}: ");
    print_decision(rt, loc.valid_indirection_table_location(day()));
}

// The blocks of 15 entries of 255 bytes and one of `last` bytes.
fn last_entry(rt: &impl Print, last: u16) {
    let bodies = [0u8; 4096];
    let mut lengths = [255u16; 16];
    lengths[15] = last;
    let _ = print!(rt; "15 entries of 255 bytes and one of {last}, in blocks: ");
    print_answer(rt, writer::range_blocks(&bodies, &lengths, 16));
}

fn main(rt: HostRuntime) {
    let _ = print!(rt; "table 1 is at ");
    print_answer(&rt, day().indirection_table1_addr());
    table_length(&rt, 4096);
    table_length(&rt, 0);
    table_length(&rt, 4097);
    last_entry(&rt, 251);
    last_entry(&rt, 252);
}
