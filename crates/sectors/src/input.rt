// What a user should know of the input: the first two sectors of a disk.
use sector::SECTOR_SIZE;

fn tell_short(rt: &impl Eprint, slot: u64, len: usize) {
    if len < SECTOR_SIZE {
        let _ = eprintln!(rt; "sectors: slot {slot} has {len} of 4096 bytes");
    }
}

// Which slot isn't whole, and that what follows the two wasn't read.
pub(crate) fn tell_missing(rt: &impl Eprint, first: usize, second: usize, more: bool) {
    tell_short(rt, 1, first);
    tell_short(rt, 2, second);
    if more {
        let _ = eprintln!(rt; "sectors: the input goes on after 8192 bytes, which were not read");
    }
}
