// What a block of the disk holds before the first step, for a disk that was written before: `block k`, and its bytes.
use super::lent::{MOST_BLOCKS, Memory};
use journal::bytes_of;
use layout::Geometry;
use runs::write;

// The block's number; its bytes go to the front of `body`. Not where the line isn't such a one or has more bytes than `body`.
fn read_block(line: &[u8], body: &mut [u8]) -> Option<u64> {
    let w = words::next_word(line, 0);
    let number = words::next_word(line, w.to);
    let bytes = words::next_word(line, number.to);
    let behind = words::next_word(line, bytes.to);
    let named = words::is(line, w, b"block");
    let last = behind.none();
    if named & last {
        words::hex(line, bytes, body, 0)?;
        return words::decimal(line, number);
    }
    None
}

// Was the line a block of the disk? Then the block holds these bytes, and can be read; else blocks and marks are as they were.
pub(crate) fn store_line(line: &[u8], g: Geometry, memory: &mut Memory) -> bool {
    let mut body = [0u8; 4096];
    let Some(k) = read_block(line, &mut body) else {
        return false;
    };
    if g.blocks <= k || MOST_BLOCKS as u64 <= k {
        return false;
    }
    let blocks: &mut [u8] = &mut memory.blocks;
    let at = bytes_of(k, blocks.len());
    write(&body, blocks, at);
    memory.marks[k as usize] = 1;
    true
}
