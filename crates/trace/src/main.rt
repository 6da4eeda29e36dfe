// A day of the store, traced: the first line of input is a disk, lines behind it may say what its blocks hold, each other line is a step, and a row of
// output says what it came to. A line that isn't a step says so with its number, alters nothing, and the day goes on. Only the line and the next chunk
// of input are held. Where an argument names a file, the disk's bytes are written to it at the day's end.
#![tactic(auto)]

mod brought;
mod command;
mod day;
mod figures;
mod first;
mod input;
mod kept;
mod lent;
mod row;
mod stored;
mod taking;

use day::Day;
use input::Input;
use layout::Geometry;
use lent::Memory;
use store::Store;

// Each turn takes one line; the turns are counted to a number that no day uses up. At the day's end the disk may be kept.
fn run(rt: &HostRuntime, mut d: Day, g: Geometry, i: &mut Input, memory: &mut Memory) {
    for _ in 0..u64::MAX {
        i.next_line();
        if !i.whole {
            break;
        }
        d = day::turn(rt, d, g, i, memory);
    }
    kept::keep(rt, g, day::slots(d), memory);
}

// The day, by memory for 32 blocks.
fn whole_day(rt: &HostRuntime) {
    let mut memory = Memory::zeros();
    let mut i = Input::new(rt.stdin());
    i.next_line();
    let Some(first) = first::parse(i.line()) else {
        row::not_a_disk(rt);
        return;
    };
    row::header(rt);
    let d = Day {
        store: Store::initial(first.slots),
        row: 0,
        begun: false,
    };
    run(rt, d, first.geometry, &mut i, &mut memory);
}

fn main(rt: HostRuntime) {
    if kept::are_too_many(&rt) {
        return;
    }
    whole_day(&rt);
}
