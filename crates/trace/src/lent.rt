// The store's memory, made for 32 blocks.
use layout::Geometry;

// The most blocks of a disk, and their bytes.
pub(crate) const MOST_BLOCKS: usize = 32;

pub(crate) const MOST_BYTES: usize = 131072;

// Pending bytes and lengths, pieces read while loading, replay bytes and lengths, the disk's blocks and their marks. Of what is here for 32
// blocks a disk of N takes the part for N.
#[derive(Drop)]
pub(crate) struct Memory {
    pub bytes: [u8; 65536],
    pub lens: [u16; 1024],
    pub pieces: [u8; MOST_BYTES],
    pub rbytes: [u8; MOST_BYTES],
    pub rlens: [u16; MOST_BYTES],
    pub blocks: [u8; MOST_BYTES],
    pub marks: [u8; MOST_BLOCKS],
}

impl Memory {
    pub(crate) fn zeros() -> Memory {
        Memory {
            bytes: [0; 65536],
            lens: [0; 1024],
            pieces: [0; MOST_BYTES],
            rbytes: [0; MOST_BYTES],
            rlens: [0; MOST_BYTES],
            blocks: [0; MOST_BYTES],
            marks: [0; MOST_BLOCKS],
        }
    }
}
