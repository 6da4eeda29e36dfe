// One call for every step of a store. The public face:
//   Step     a step with its arguments: machine steps in the order of 000's Step, then ask again, the landing, the crashes
//   Given    what a call brings beside its arguments: entries, and the picture of a crash
//   step     the step, whole: questions 1 and 2 once, then the machine's, then the disk's
// What is lent is the same for every step. Every function is total.
#![tactic(auto, using(refusal::specs::Refusal::questions), unfolding(laws::specs::Choice::and_then, crate::specs::Step::ask_picture, crate::specs::Step::ask_step))]

mod calls;
mod stepping;

pub use calls::{Given, Step};
pub use stepping::step;
