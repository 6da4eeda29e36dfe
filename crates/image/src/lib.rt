// A disk's bytes as they lie, an image: the sectors of the two slots at 0 and 4,096, block k of the journal at 8,192 + 4,096 k. The public face:
//   read_slot       the superblock of the sector that begins at a byte, or the question that was answered no
//   ask_image       question 1: the geometry, the image's length and the lent lengths
//   record          the record of a disk: what a load of it comes to
//   record_marked   the same, by a caller who knows which blocks can be read
//   write_image     the other way: what two slots hold and the journal's blocks as an image
// Every function is total. No disk is altered by a record; a refusal leaves replay memory as it was. What lies behind the journal isn't part of
// an image.
#![tactic(auto, using(refusal::specs::Refusal::questions, laws::specs::Choice::tests), unfolding(laws::specs::Choice::and_then, laws::specs::Choice::ask, laws::specs::Choice::also, laws::specs::Choice::unless, crate::specs::Image::ask_image, crate::specs::Image::image_lent))]

mod choosing;
mod reading;
mod recording;
mod writing;

pub use reading::{ask_image, read_slot};
pub use recording::{record, record_marked};
use refusal::Refusal;
use superblock::Superblock;
pub use writing::write_image;

// The record: the selected superblock and its slot (0 the first, 1 the second), how many entries lie in replay memory, and how many bytes
// they have.
#[derive(Clone, Copy)]
pub struct Held {
    pub superblock: Superblock,
    pub which: u64,
    pub entries: u64,
    pub bytes: u64,
}

// The question that was answered no, and of which slot, 1 or 2; 0 where it isn't asked of a slot.
#[derive(Clone, Copy)]
pub struct Refused {
    pub no: Refusal,
    pub slot: u8,
}

// What the two sectors come to: the selected superblock and its slot.
#[derive(Clone, Copy)]
pub struct Choice {
    pub superblock: Superblock,
    pub which: u64,
}
