// No code: sources 001, 000 and 004 as relations over states of their own shape, with document 01's departures and limits, in specs/.
#![tactic(auto)]
