// A step, or the one that the loading driver names, and its row.
use super::lent::Memory;
use super::row;
use calls::{Given, Step};
use digest::check_number;
use journal::bytes_of;
use layout::Geometry;
use refusal::Refusal;
use store::{Lent, LentMut, Store};
use superblock::DiskOp;

// What a store of this geometry is lent of it, to look at.
fn lent(memory: &Memory, g: Geometry) -> Lent<'_> {
    let pieces: &[u8] = &memory.pieces;
    let rbytes: &[u8] = &memory.rbytes;
    let rlens: &[u16] = &memory.rlens;
    let blocks: &[u8] = &memory.blocks;
    let marks: &[u8] = &memory.marks;
    let size = bytes_of(g.blocks, pieces.len());
    let count = (g.blocks as usize).min(marks.len());
    let machine = machine::Lent {
        bytes: &memory.bytes,
        lens: &memory.lens,
        pieces: &pieces[..size],
        rbytes: &rbytes[..size],
        rlens: &rlens[..size],
    };
    Lent {
        machine,
        blocks: &blocks[..size],
        marks: &marks[..count],
    }
}

// The row: what was answered, and what is visible of the store then.
fn show(
    rt: &HostRuntime,
    n: u64,
    answer: Result<DiskOp, Refusal>,
    s: Store,
    g: Geometry,
    memory: &Memory,
) {
    let l = lent(memory, g);
    let h = check_number(s.disk.slots, s.machine, g, l.machine, l.blocks, l.marks);
    row::print(rt, n, answer, s.machine, h);
}

// The step with the entries that it brings.
pub(crate) fn step(
    rt: &HostRuntime,
    s: Store,
    g: Geometry,
    n: u64,
    x: Step,
    brought: &[u8],
    sizes: &[u16],
    memory: &mut Memory,
) -> Store {
    let none = [0u8; 1];
    let pieces: &mut [u8] = &mut memory.pieces;
    let rbytes: &mut [u8] = &mut memory.rbytes;
    let rlens: &mut [u16] = &mut memory.rlens;
    let blocks: &mut [u8] = &mut memory.blocks;
    let marks: &mut [u8] = &mut memory.marks;
    let size = bytes_of(g.blocks, pieces.len());
    let count = (g.blocks as usize).min(marks.len());
    let given = Given {
        brought,
        sizes,
        picture: &none,
        pictured: &none,
    };
    let mut all = LentMut {
        bytes: &mut memory.bytes,
        lens: &mut memory.lens,
        pieces: &mut pieces[..size],
        rbytes: &mut rbytes[..size],
        rlens: &mut rlens[..size],
        blocks: &mut blocks[..size],
        marks: &mut marks[..count],
    };
    let r = calls::step(s, g, x, given, &mut all);
    show(rt, n, r.answer, r.store, g, memory);
    r.store
}

// The step that the driver names; it brings nothing.
pub(crate) fn drive(rt: &HostRuntime, s: Store, g: Geometry, n: u64, memory: &mut Memory) -> Store {
    match driver::next_step(s, g, lent(memory, g)) {
        Ok(x) => step(rt, s, g, n, x, &[0; 1], &[0; 1], memory),
        Err(no) => {
            show(rt, n, Err(no), s, g, memory);
            s
        },
    }
}
