// The memory that is lent to a store.
ghost use Rattle.std.specs.Prelude.{◌≡◌};
ghost use Rattle.store.specs.Lent.{lent_of, lent_in};

// What is lent to a store to look at: the machine's, and the disk's blocks and marks. A step that alters some of it takes the slices themselves.
#[derive(Clone, Copy)]
pub struct Lent<'a> {
    pub machine: machine::Lent<'a>,
    pub blocks: &'a [u8],
    pub marks: &'a [u8],
}

// The same, all of it to be altered.
#[derive(Drop)]
pub struct LentMut<'a> {
    pub bytes: &'a mut [u8],
    pub lens: &'a mut [u16],
    pub pieces: &'a mut [u8],
    pub rbytes: &'a mut [u8],
    pub rlens: &'a mut [u16],
    pub blocks: &'a mut [u8],
    pub marks: &'a mut [u8],
}

impl LentMut<'_> {
    // The same to look at.
    pub fn shared(&self) -> Lent<'_>
        ensures { lent_of result ≡ lent_in self.now }
    {
        let machine = machine::Lent {
            bytes: self.bytes,
            lens: self.lens,
            pieces: self.pieces,
            rbytes: self.rbytes,
            rlens: self.rlens,
        };
        Lent {
            machine,
            blocks: self.blocks,
            marks: self.marks,
        }
    }
}
