// What an index record means, and one entry of it; its bytes as a whole are said in `sections`. Only definitions and proofs.
#![tactic(auto)]
