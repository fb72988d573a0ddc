// A depot's day is a history: whatever lines are served one after another, the history theorem speaks of them. Only definitions and proofs.
#![tactic(auto)]
