// How many rows a search visits; there is no code here.
#![tactic(auto)]
