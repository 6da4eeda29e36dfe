// No code: the laws on choices, tests, lists and rings that every other crate's proofs cite stand in specs/.
#![tactic(auto)]
