// The entries that a line brings.

fn put_length(sizes: &mut [u16], i: usize, n: u64) {
    if let Some(size) = sizes.get_mut(i) {
        if let Ok(length) = u16::try_from(n) {
            *size = length;
        }
    }
}

// More than a line has words.
const MOST_WORDS: usize = 16384;

// The words from a place on as entries: their bytes to `brought`, back to back, their lengths to `sizes`. How many there are. The store is
// asked whether they are few enough, and short enough.
pub(crate) fn read_entries(
    line: &[u8],
    at: usize,
    brought: &mut [u8],
    sizes: &mut [u16],
) -> Option<u64> {
    let mut filled: usize = 0;
    let mut i = at;
    for count in 0..MOST_WORDS {
        let w = words::next_word(line, i);
        if w.none() {
            return Some(count as u64);
        }
        let n = words::hex(line, w, brought, filled)?;
        put_length(sizes, count, n);
        filled = filled.saturating_add(n as usize);
        i = w.to;
    }
    None
}
