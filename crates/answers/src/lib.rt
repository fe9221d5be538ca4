// Theorems on answers; there is no code.
#![tactic(auto)]
