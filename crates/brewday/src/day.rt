// One line of the day: its command, the step, its row.
use super::lent::Memory;
use super::{command, row};
use calls::{Given, Step};
use layout::Geometry;
use store::{LentMut, Store};

// The store so far, the place of the next line, and the number of the last one.
#[derive(Clone, Copy)]
pub struct Day {
    pub store: Store,
    pub at: usize,
    pub row: u64,
}

fn geometry() -> Geometry {
    Geometry {
        blocks: 8,
        table: 4096,
    }
}

// What a line comes to: its row, and the store after it. A line that isn't a command says so and alters nothing.
fn play(
    rt: &impl Print,
    s: Store,
    n: u64,
    c: Option<Step>,
    brought: &[u8],
    sizes: &[u16],
    memory: &mut Memory,
) -> Store {
    let Some(x) = c else {
        row::not_a_command(rt, n);
        return s;
    };
    let none = [0u8; 1];
    let given = Given {
        brought,
        sizes,
        picture: &none,
        pictured: &none,
    };
    let mut lent = LentMut {
        bytes: &mut memory.bytes,
        lens: &mut memory.lens,
        pieces: &mut memory.pieces,
        rbytes: &mut memory.rbytes,
        rlens: &mut memory.rlens,
        blocks: &mut memory.blocks,
        marks: &mut memory.marks,
    };
    let r = calls::step(s, geometry(), x, given, &mut lent);
    let next = r.store;
    row::print(rt, n, r.answer, next.machine);
    next
}

// The next line, where there is one.
pub(crate) fn turn(rt: &impl Print, d: Day, input: &[u8], memory: &mut Memory) -> Day {
    let from = d.at;
    if input.len() <= from {
        return d;
    }
    let end = words::next(input, from, input.len(), 10);
    let n = d.row.saturating_add(1);
    let mut brought = [0u8; 256];
    let mut sizes = [0u16; 1];
    let c = command::parse(input, from, end, &mut brought, &mut sizes);
    let store = play(rt, d.store, n, c, &brought, &sizes, memory);
    Day {
        store,
        at: end.saturating_add(1),
        row: n,
    }
}
