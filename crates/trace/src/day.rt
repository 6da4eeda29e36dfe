// One line of the day: its step, if it is one.
use super::command::Command;
use super::input::Input;
use super::lent::Memory;
use super::{command, row, stored, taking};
use layout::Geometry;
use requests::Slots;
use store::Store;

// The store so far, the number of the last line, and whether a step came already.
#[derive(Clone, Copy)]
pub(crate) struct Day {
    pub store: Store,
    pub row: u64,
    pub begun: bool,
}

// What the disk's slots hold.
pub(crate) fn slots(d: Day) -> Slots {
    d.store.disk.slots
}

fn at_row(store: Store, row: u64, begun: bool) -> Day {
    Day { store, row, begun }
}

// What a line says; one that is too long says nothing.
fn command_of(i: &Input, brought: &mut [u8], sizes: &mut [u16]) -> Option<Command> {
    if i.long {
        return None;
    }
    command::parse(i.line(), brought, sizes)
}

// A line that isn't a step: before the first one it may say what a block holds, else a row says that it isn't one.
fn other_line(rt: &HostRuntime, d: Day, g: Geometry, n: u64, i: &Input, memory: &mut Memory) {
    if d.begun || i.long || !stored::store_line(i.line(), g, memory) {
        row::not_a_step(rt, n);
    }
}

// The line as a step; a row is printed for it.
pub(crate) fn turn(rt: &HostRuntime, d: Day, g: Geometry, i: &Input, memory: &mut Memory) -> Day {
    let s = d.store;
    let n = d.row.saturating_add(1);
    // All bytes that a line can bring; of more than 16 entries the store looks at their number alone.
    let mut brought = [0u8; 8192];
    let mut sizes = [0u16; 16];
    match command_of(i, &mut brought, &mut sizes) {
        Some(Command::Take(x)) => {
            let next = taking::step(rt, s, g, n, x, &brought, &sizes, memory);
            at_row(next, n, true)
        },
        Some(Command::Drive) => {
            let next = taking::drive(rt, s, g, n, memory);
            at_row(next, n, true)
        },
        None => {
            other_line(rt, d, g, n, i, memory);
            at_row(s, n, d.begun)
        },
    }
}
