// What the program prints for a file of requests: definitions and theorems. There is no code.
#![tactic(auto)]
