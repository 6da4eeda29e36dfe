// The check number of a store's visible content. The public face:
//   check_number   the number of the slots, of the blocks that can be read, and of what the machine's kind holds in lent memory
// It starts at 0 and takes one byte after another, h = (h × 257 + b + 1) mod 4,294,967,291. Two stores that show the same content have the
// same number. Every function of the public face is total.
#![tactic(auto, using(laws::specs::Choice::tests, crate::specs::Laws::Takes::takes_append), unfolding(crate::specs::Take::take_byte, crate::specs::Take::takes, crate::specs::Visible::superblock_bytes, crate::specs::Visible::slot_bytes, crate::specs::Visible::slots_bytes, crate::specs::Visible::marked_bytes, crate::specs::Visible::piece_bytes, crate::specs::Visible::loaded_bytes, crate::specs::Visible::working_bytes, crate::specs::Visible::kind_bytes, crate::specs::Visible::visible))]

mod blocks;
mod bytes;
mod content;
mod held;
mod superblocks;

pub use content::check_number;
