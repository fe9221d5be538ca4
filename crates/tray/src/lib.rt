// A tray of requests in one call: definitions. There is no code.
#![tactic(auto)]
