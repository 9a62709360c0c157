// Definitions (specs/) and laws (proofs/) that several crates share, each stated once. There is no code.
#![tactic(auto)]
