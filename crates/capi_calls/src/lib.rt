// What each call from C leaves: definitions. There is no code.
#![tactic(auto)]
