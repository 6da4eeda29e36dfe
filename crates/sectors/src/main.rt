// The two superblocks of a disk, for whoever looks at one: its first two sectors on standard input; on standard output what each says, and
// which of them a store would load from. docs/SECTORS.md has the rows and what is said on standard error.
#![tactic(auto)]

mod input;
mod rows;

use sector::{SECTOR_SIZE, read_sector};

fn main(rt: HostRuntime) {
    let mut disk = [0u8; 8192];
    let i = streams::read_input(&mut rt.stdin(), &mut disk);
    if i.failed {
        let _ = eprintln!(rt; "sectors: standard input can't be read");
        return;
    }
    let end = i.len.min(disk.len());
    let half = end.min(SECTOR_SIZE);
    input::tell_missing(&rt, half, end - half, i.more);
    let first = read_sector(&disk[0..half]);
    let second = read_sector(&disk[half..end]);
    let mut rows = [0u8; 512];
    let n = rows::put_rows(first, second, &mut rows);
    let size = n.min(rows.len());
    let written = rt.write_all(&rows[0..size]).is_ok();
    if !written {
        let _ = eprintln!(rt; "sectors: the rows can't be written");
    }
}
