// The store's memory at N = 8.

// Pending bytes and lengths, pieces read while loading, replay bytes and lengths, the disk's blocks and their marks.
#[derive(Drop)]
pub struct Memory {
    pub bytes: [u8; 65536],
    pub lens: [u16; 1024],
    pub pieces: [u8; 32768],
    pub rbytes: [u8; 32768],
    pub rlens: [u16; 32768],
    pub blocks: [u8; 32768],
    pub marks: [u8; 8],
}

impl Memory {
    pub(crate) fn zeros() -> Memory {
        Memory {
            bytes: [0; 65536],
            lens: [0; 1024],
            pieces: [0; 32768],
            rbytes: [0; 32768],
            rlens: [0; 32768],
            blocks: [0; 32768],
            marks: [0; 8],
        }
    }
}
