// The numbers of a line.

const MOST_NUMBERS: usize = 12;

// Up to 12 numbers, as a disk has; behind them are zeros.
#[derive(Clone, Copy)]
pub(crate) struct Numbers {
    pub count: usize,
    pub values: [u64; MOST_NUMBERS],
}

impl Numbers {
    // One more; a thirteenth makes them none.
    fn with(mut self, v: u64) -> Option<Numbers> {
        let i = self.count;
        if i < MOST_NUMBERS {
            self.values[i] = v;
            self.count = i + 1;
            return Some(self);
        }
        None
    }
}

// The words from a place on, if each is a number.
pub(crate) fn read_numbers(line: &[u8], at: usize) -> Option<Numbers> {
    let mut n = Numbers {
        count: 0,
        values: [0; MOST_NUMBERS],
    };
    let mut i = at;
    for _ in 0..=MOST_NUMBERS {
        let w = words::next_word(line, i);
        if w.none() {
            return Some(n);
        }
        n = n.with(words::decimal(line, w)?)?;
        i = w.to;
    }
    None
}
