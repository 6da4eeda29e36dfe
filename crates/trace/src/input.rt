// Standard input, line by line: it comes in chunks, and only the chunk and the line are held.
use std::io::{Read, Stdin};

// What isn't yet taken of the chunk lies from `at` up to `end`. The line has `len` bytes so far; `long`: it has more than its buffer holds.
// `whole`: that is all of it; `ended`: no more is read.
#[derive(Drop)]
pub(crate) struct Input {
    chunk: [u8; 65536],
    at: usize,
    end: usize,
    line: [u8; 16384],
    len: usize,
    pub long: bool,
    pub whole: bool,
    ended: bool,
    from: Stdin,
}

impl Input {
    pub(crate) fn new(from: Stdin) -> Input {
        Input {
            chunk: [0; 65536],
            at: 0,
            end: 0,
            line: [0; 16384],
            len: 0,
            long: false,
            whole: false,
            ended: false,
            from,
        }
    }

    // The line, where it isn't too long.
    pub(crate) fn line(&self) -> &[u8] {
        let line: &[u8] = &self.line;
        let len = self.len.min(line.len());
        &line[..len]
    }

    // The next chunk. At the input's end, which a read that fails is too, a line without a line feed is whole.
    fn fill(&mut self) {
        let mut from = self.from;
        self.at = 0;
        self.end = from.read(&mut self.chunk).unwrap_or(0);
        if self.end == 0 {
            self.ended = true;
            self.whole = self.long || 0 < self.len;
        }
    }

    // What the chunk has of the line, up to its line feed.
    fn take(&mut self) {
        let from = self.at;
        let to = self.len;
        let stop = words::next(&self.chunk, from, self.end, b'\n');
        let count = stop.saturating_sub(from);
        self.len = to.saturating_add(count);
        self.whole = stop < self.end;
        self.at = stop.saturating_add(1).min(self.end);
        if self.long || self.line.len() < self.len {
            self.long = true;
            self.len = 0;
            return;
        }
        runs::copy(&self.chunk, from, count, &mut self.line, to);
    }

    // The next line, or the input's end. Nothing says that an input ends, so the turns are counted to a number that no input uses up.
    pub(crate) fn next_line(&mut self) {
        self.len = 0;
        self.long = false;
        self.whole = false;
        for _ in 0..u64::MAX {
            if self.whole || self.ended {
                return;
            }
            if self.at < self.end {
                self.take();
            } else {
                self.fill();
            }
        }
    }
}
