// The place of the first byte of a kind, from a place on.
ghost use Rattle.std.specs.Prelude.{◌≡◌, length, take, drop};
ghost use Rattle.words.specs.Place.{place, is_byte, is_blank, not_blank};

// What is left of a line from a place on.
fn rest(line: &[u8], from: usize) -> &[u8]
    ensures { result.now ≡ drop from line.now }
{
    let start = from.min(line.len());
    &line[start..]
}

// The place of the next `stop`, from a place on and before `end`; `end` where there is none.
pub fn next(input: &[u8], from: usize, end: usize, stop: u8) -> usize
    ensures { result ≡ place (is_byte stop) (take end input.now) from end }
{
    let last = end.min(input.len());
    match rest(&input[..last], from).iter().position(|c| *c == stop) {
        Some(i) => from + i,
        None => end,
    }
}

// Space, tab, form feed, carriage return.
fn is_blank(c: u8) -> bool
    ensures { result ≡ is_blank c }
{
    matches!(c, 32 | 9 | 12 | 13)
}

// The first place from a place on that isn't blank; the line's length where there is none.
pub(crate) fn word_start(line: &[u8], at: usize) -> usize
    ensures { result ≡ place not_blank line.now at (length line.now) }
{
    match rest(line, at).iter().position(|c| !is_blank(*c)) {
        Some(i) => at + i,
        None => line.len(),
    }
}

// The first blank place from a place on; the line's length where there is none.
pub(crate) fn word_end(line: &[u8], from: usize) -> usize
    ensures { result ≡ place is_blank line.now from (length line.now) }
{
    match rest(line, from).iter().position(|c| is_blank(*c)) {
        Some(i) => from + i,
        None => line.len(),
    }
}
