// No code: one view from the code's records and lent memory to the states of crate source, and that the code's steps agree with the sources
// there, in specs/.
#![tactic(auto)]
