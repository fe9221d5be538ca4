// Theorems about messages that are sent again stand in specs/; there is no code.
#![tactic(auto)]
