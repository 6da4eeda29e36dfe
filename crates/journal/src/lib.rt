// The journal in lent memory: N blocks of 4,096 bytes and N marks (1 readable, 0 not), seen as a ring. The public face:
//   ask_blocks, ask_marks, ask_journal         question 1, of the lent blocks, of the marks, of both
//   ask_size                                   question 4, of bytes that are to be an interval's blocks
//   ask_readable, full_range                   is every block of an interval readable? As question 6, and as a test
//   cyclic_slice_bytes, cyclic_slice_marks     an interval's blocks, or marks, copied out in order
//   journal_update                             an interval's blocks written, and their marks set
//   bytes_of                                   the bytes of so many blocks, or of a memory where that is less
//   copy_blocks, write_blocks, set_marks       the same copying and writing without a question, for a step that has asked
// Every function is total. One that asks answers a `Result`, and a refusal leaves the lent memory as it was. One that asks nothing is cut
// where the memory ends.
#![tactic(auto, using(refusal::specs::Refusal::questions, laws::specs::Choice::tests), unfolding(laws::specs::Choice::and_then, laws::specs::Choice::ask, laws::specs::Choice::also, laws::specs::Choice::unless, crate::specs::Memory::is_mark, crate::specs::Memory::is_one, crate::specs::Memory::ask_blocks, crate::specs::Memory::ask_marks, crate::specs::Memory::ask_journal, crate::specs::Memory::ask_size, crate::specs::Memory::ask_readable, crate::specs::Memory::ask_full, crate::specs::Memory::ask_slice_bytes, crate::specs::Memory::ask_slice_marks, crate::specs::Memory::ask_update, crate::specs::Memory::update_marks))]

mod questions;
mod readable;
mod size;
mod slices;
mod update;

pub use questions::{ask_blocks, ask_journal, ask_marks, ask_size};
pub use readable::{ask_readable, full_range};
pub use size::bytes_of;
pub use slices::{copy_blocks, cyclic_slice_bytes, cyclic_slice_marks};
pub use update::{journal_update, set_marks, write_blocks};
