// The index record in sections. Only definitions and proofs.
#![tactic(auto)]
