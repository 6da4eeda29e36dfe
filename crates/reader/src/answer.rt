// The contents of a range.

// What bytes say of themselves, taken as a range: so many blocks, so many entries, so many bytes of bodies.
#[derive(Clone, Copy)]
pub struct Contents {
    pub blocks: usize,
    pub entries: usize,
    pub bytes: usize,
}
