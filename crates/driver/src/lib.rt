// The loading driver: which step brings a store that loads further. The public face:
//   next_step   the step to take, or the no to questions 1 and 2 of all that is handed, or to 3 at Ready
//   least_new   the least id under which nothing waits at a disk
// Slot 1 is seen through, then slot 2, and the superblocks are finished; then the front, the back and the end likewise. Every function is total, and
// alters nothing.
#![tactic(auto, using(laws::specs::Choice::tests, refusal::specs::Refusal::questions), unfolding(laws::specs::Choice::either, crate::specs::Ids::holds, crate::specs::Driver::superblocks_step, crate::specs::Driver::other_step, crate::specs::Driver::loading_step, crate::specs::Driver::next_step))]

mod ids;
mod naming;

pub use ids::least_new;
pub use naming::next_step;
