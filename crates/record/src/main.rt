// The record of a disk, for whoever looks at one: FILE N T for each disk as arguments; on standard output what its slots say, which is selected, and
// the ranges and entries of the interval that it names. docs/RECORD.md has the rows and what is said on standard error.
#![tactic(auto)]

mod arguments;
mod disks;
mod entries;
mod input;
mod memory;
mod ranges;
mod rows;
mod said;
mod slots;

// The disks in turn, up to one whose rows couldn't be written, which is said.
fn run(
    rt: &HostRuntime,
    disks: usize,
    disk: &mut [u8],
    pieces: &mut [u8],
    rbytes: &mut [u8],
    rlens: &mut [u16],
    text: &mut [u8],
) {
    let mut i: usize = 1;
    for _ in 0..disks {
        if !disks::show(rt, i, disk, pieces, rbytes, rlens, text) {
            said::not_written(rt);
            return;
        }
        i = i.saturating_add(3);
    }
}

fn main(rt: HostRuntime) {
    let disks = arguments::disk_count(&rt);
    if disks == 0 {
        said::expected(&rt);
        return;
    }
    let mut disk = memory::disk();
    let mut pieces = memory::blocks();
    let mut rbytes = memory::blocks();
    let mut rlens = memory::lengths();
    let mut text = [0u8; 65536];
    run(
        &rt,
        disks,
        &mut disk,
        &mut pieces,
        &mut rbytes,
        &mut rlens,
        &mut text,
    );
}
