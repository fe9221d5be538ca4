// Theorems on what messages leave and show; there is no code.
#![tactic(auto)]
