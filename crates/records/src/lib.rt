// No code: the record that crate image tells of a disk's bytes is what the ledger keeps, and what a load of the disk comes to, in specs/.
#![tactic(auto)]
