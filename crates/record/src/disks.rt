// One disk: its bytes, its record, its rows.
use super::ranges::put_ranges;
use super::rows::Rows;
use super::slots::Sectors;
use super::{arguments, input, rows, said, slots};
use image::{Held, Refused, read_slot};
use journal::bytes_of;
use layout::Geometry;
use refusal::Refusal;
use sector::SECTOR_SIZE;
use std::env::Env;
use std::io::Stdout;
use superblock::Superblock;

const HEAD_SIZE: usize = Geometry::JOURNAL_START_ADDR as usize;

// The rows of the selected interval's ranges: where it lies straight its bytes are the disk's own, else they are in pieces.
fn put_interval(
    g: Geometry,
    s: Superblock,
    disk: &[u8],
    pieces: &[u8],
    rbytes: &[u8],
    rlens: &[u16],
    text: &mut [u8],
    r: Rows,
) -> Rows {
    let start = s.journalStart;
    let size = bytes_of(s.journalLen, pieces.len());
    let at = (HEAD_SIZE + bytes_of(start, pieces.len())).min(disk.len());
    if size <= disk.len() - at {
        return put_ranges(start, g, &disk[at..at + size], rbytes, rlens, text, r);
    }
    put_ranges(start, g, &pieces[0..size], rbytes, rlens, text, r)
}

// The rows of what was found: where both slots are sound, which is selected; then the ranges, or the refusal.
fn put_found(
    g: Geometry,
    found: Result<Held, Refused>,
    sectors: Sectors,
    disk: &[u8],
    pieces: &[u8],
    rbytes: &[u8],
    rlens: &[u16],
    text: &mut [u8],
    r: Rows,
) -> Rows {
    match found {
        Ok(record) => {
            let s = record.superblock;
            let a = slots::put_selected(g, sectors, text, r);
            let b = put_interval(g, s, disk, pieces, rbytes, rlens, text, a);
            rows::put_two(b"record", record.entries, record.bytes, text, b)
        },
        Err(refused) => put_refused(g, refused.no, sectors, text, r),
    }
}

// A refusal by the interval's own bytes comes after the selection.
fn put_refused(g: Geometry, no: Refusal, sectors: Sectors, text: &mut [u8], r: Rows) -> Rows {
    let number = no.number() as u64;
    if no == Refusal::Parse {
        let a = slots::put_selected(g, sectors, text, r);
        return rows::put_one(b"refused", number, text, a);
    }
    rows::put_one(b"refused", number, text, r)
}

// All rows of a disk, by memory of the lengths that N asks for.
fn put_disk(
    out: Stdout,
    g: Geometry,
    disk: &[u8],
    pieces: &mut [u8],
    rbytes: &mut [u8],
    rlens: &mut [u16],
    text: &mut [u8],
) -> Rows {
    let first = read_slot(disk, 0);
    let second = read_slot(disk, SECTOR_SIZE);
    let sectors = Sectors { first, second };
    let none = rows::none(out);
    let r = slots::put_slots(g, sectors, text, none);
    let found = image::record(g, disk, pieces, rbytes, rlens);
    put_found(g, found, sectors, disk, pieces, rbytes, rlens, text, r)
}

// The rows of a disk whose bytes are read. Were they written? The memory is made for 256 blocks; what N blocks take of it is lent.
fn show_read(
    out: Stdout,
    g: Geometry,
    disk: &[u8],
    pieces: &mut [u8],
    rbytes: &mut [u8],
    rlens: &mut [u16],
    text: &mut [u8],
) -> bool {
    let a = bytes_of(g.blocks, pieces.len());
    let b = bytes_of(g.blocks, rbytes.len());
    let c = bytes_of(g.blocks, rlens.len());
    let r = put_disk(
        out,
        g,
        disk,
        &mut pieces[0..a],
        &mut rbytes[0..b],
        &mut rlens[0..c],
        text,
    );
    let last = rows::flush(r, text);
    last.ok
}

fn show_named(
    rt: &HostRuntime,
    g: Geometry,
    name: &[u8],
    disk: &mut [u8],
    pieces: &mut [u8],
    rbytes: &mut [u8],
    rlens: &mut [u16],
    text: &mut [u8],
) -> bool {
    let size = bytes_of(g.blocks, pieces.len());
    let d = (HEAD_SIZE + size).min(disk.len());
    let read = input::load(rt, name, g.blocks, &mut disk[0..d]);
    if read {
        return show_read(rt.stdout(), g, &disk[0..d], pieces, rbytes, rlens, text);
    }
    true
}

// The disk whose file is argument i. No where its rows couldn't be written: then nothing more can be.
pub(crate) fn show(
    rt: &HostRuntime,
    i: usize,
    disk: &mut [u8],
    pieces: &mut [u8],
    rbytes: &mut [u8],
    rlens: &mut [u16],
    text: &mut [u8],
) -> bool {
    let mut name = [0u8; 4095];
    let Ok(n) = rt.arg(i, &mut name) else {
        said::no_name(rt, i);
        return true;
    };
    match arguments::geometry(rt, i, &name[..n]) {
        Some(g) => show_named(rt, g, &name[..n], disk, pieces, rbytes, rlens, text),
        None => true,
    }
}
