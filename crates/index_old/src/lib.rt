// The index record in the old form, as document 01 had it: kept for the statements on areas in the old form, and for nothing else. Only definitions and proofs.
#![tactic(auto)]
