// No code: the ledger, and what whole histories show of it, stand in specs/.
#![tactic(auto)]
