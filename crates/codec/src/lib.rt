// No code: ranges as lists of blocks, and document 01's range format as one form of them, in specs/.
#![tactic(auto)]
