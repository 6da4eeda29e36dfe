// Runs of elements in lent memory. The public face:
//   write, copy, fill             elements from a place on, cut where the memory ends: a run of them, a part of another memory, one value
//   narrow, widen                 lengths likewise: to single bytes, from single bytes
//   write_around, narrow_around, fill_around   going round: what passes the memory's end goes to its front
//   move_front                    a part moved to the front
//   same_at                       is the front of a run what another has from a place on?
//   zeros                         is every byte of a run zero?
// Every function is total: what does not fit is cut, and a part that isn't there is empty. Elements are of any type that can be copied.
#![tactic(auto)]

mod around;
mod blank;
mod compare;
mod front;
mod lengths;
mod run;

pub use around::{fill_around, narrow_around, write_around};
pub use blank::zeros;
pub use compare::same_at;
pub use front::move_front;
pub use lengths::{narrow, widen};
pub use run::{copy, fill, write};
