// Theorems about committed scans stand in specs/; there is no code.
#![tactic(auto)]
