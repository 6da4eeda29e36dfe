// Bytes taken into the check number, one after another.
ghost use Rattle.std.specs.Prelude.{◌≡◌, ◌*◌, ◌<◌, ◌≤◌, length, take, drop};
ghost use Rattle.laws.specs.LowFirst.{low_first, each_low};
ghost use Rattle.digest.specs.Take.{take_byte, takes};

const MODULUS: u64 = 4294967291;

// The check number of the bytes taken so far: a remainder by the modulus, so that it leaves room for three more bytes in 64 bits.
#[derive(Clone, Copy)]
pub(crate) struct Taken {
    pub(crate) number: u64,
    ghost small: { number < 4294967291 },
}

impl Taken {
    // No byte is taken yet.
    pub(crate) fn none() -> Taken
        ensures { result.number ≡ 0 }
    {
        Taken { number: 0 }
    }

    pub(crate) fn byte(self, b: u8) -> Taken
        ensures { result.number ≡ take_byte self.number b }
    {
        Taken {
            number: (self.number * 257 + u64::from(b) + 1) % MODULUS,
        }
    }

    // Three bytes with one remainder: before it they stay below 64 bits. 257³ is 16,974,593.
    fn three(self, a: u8, b: u8, c: u8) -> Taken
        ensures { result.number ≡ take_byte (take_byte (take_byte self.number a) b) c }
    {
        let low = (u64::from(a) + 1) * 66049 + (u64::from(b) + 1) * 257 + u64::from(c) + 1;
        Taken {
            number: (self.number * 16974593 + low) % MODULUS,
        }
    }

    // The first n threes.
    fn threes(self, s: &[u8], n: usize) -> Taken
        requires { 3 * n ≤ length s.now }
        ensures { takes result.number (drop (3 * n) s.now) ≡ takes self.number s.now }
    {
        let mut v = self;
        for i in 0..n {
            v = v.three(s[3 * i], s[3 * i + 1], s[3 * i + 2]);
        }
        v
    }

    // One by one.
    fn singles(self, s: &[u8]) -> Taken
        ensures { result.number ≡ takes self.number s.now }
    {
        let mut v = self;
        for b in s {
            v = v.byte(*b);
        }
        v
    }

    // As many threes as there are, then the bytes that are left.
    pub(crate) fn bytes(self, s: &[u8]) -> Taken
        ensures { result.number ≡ takes self.number s.now }
    {
        let n = s.len() / 3;
        let v = self.threes(s, n);
        v.singles(&s[3 * n..])
    }

    // So many bytes from a place on, or as many of them as there are.
    pub(crate) fn part(self, s: &[u8], from: usize, count: usize) -> Taken
        ensures { result.number ≡ takes self.number (take count (drop from s.now)) }
    {
        let start = from.min(s.len());
        let size = count.min(s.len() - start);
        self.bytes(&s[start..start + size])
    }

    // A number as eight bytes, the low byte first.
    pub(crate) fn number(self, n: u64) -> Taken
        ensures { result.number ≡ takes self.number (low_first 8 n) }
    {
        self.singles(&n.to_le_bytes())
    }

    // A length as two.
    fn length(self, len: u16) -> Taken
        ensures { result.number ≡ takes self.number (low_first 2 len) }
    {
        self.singles(&len.to_le_bytes())
    }

    pub(crate) fn lengths(self, lens: &[u16]) -> Taken
        ensures { result.number ≡ takes self.number (each_low 2 lens.now) }
    {
        let mut v = self;
        for n in lens {
            v = v.length(*n);
        }
        v
    }
}
