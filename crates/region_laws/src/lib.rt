// Theorems about the nested listing, and no code: demand 3 of document 00 as laws of the definition that the contract of `list` cites.
#![tactic(auto)]
